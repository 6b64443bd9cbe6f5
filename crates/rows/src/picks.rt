// The corners of a tetrahedron in the order of the table: plus, minus, zero, each ascending.
ghost use Rattle.std.specs.Prelude.{◌≡◌, ◌≤◌};
ghost use Rattle.rows.specs.inner.Picks.{weight, plus_weight, sum, picked, chosen, ordered, inversion, is_even};

use moving::Label;

// The weight of a label. Those of four corners add up to the pattern's number.
#[tactic(auto, unfolding(crate::specs::inner::Picks::weight))]
fn weight(label: Label) -> usize
    ensures value { result ≡ weight label }
    ensures upper_bound { result ≤ plus_weight }
{
    match label {
        Label::Minus => 1,
        Label::Zero => 0,
        Label::Plus => 5,
    }
}

// The pattern's number: document 01 has its table by it.
#[tactic(auto, unfolding(crate::specs::inner::Picks::sum))]
pub fn pattern(labels: [Label; 4]) -> usize
    ensures { result ≡ sum labels }
{
    let [a, b, c, d] = labels;
    weight(a) + (weight(b) + (weight(c) + weight(d)))
}

// A corner before the rest, if it is taken.
#[tactic(auto, unfolding(crate::specs::inner::Picks::picked))]
fn pick(taken: bool, v: usize, rest: [usize; 4]) -> [usize; 4]
    ensures { result ≡ picked taken v rest }
{
    if taken {
        [v, rest[0], rest[1], rest[2]]
    } else {
        rest
    }
}

// The corners with a label, ascending, and then the rest.
#[tactic(auto, unfolding(crate::specs::inner::Picks::chosen))]
fn choose(label: Label, labels: [Label; 4], rest: [usize; 4]) -> [usize; 4]
    ensures { result ≡ chosen label labels rest }
{
    let wanted = weight(label);
    let [a, b, c, d] = labels;
    let from_d = pick(weight(d) == wanted, 3, rest);
    let from_c = pick(weight(c) == wanted, 2, from_d);
    let from_b = pick(weight(b) == wanted, 1, from_c);
    pick(weight(a) == wanted, 0, from_b)
}

#[tactic(auto, unfolding(crate::specs::inner::Picks::ordered))]
pub fn order(labels: [Label; 4]) -> [usize; 4]
    ensures { result ≡ ordered labels }
{
    let zeros = choose(Label::Zero, labels, [0; 4]);
    let others = choose(Label::Minus, labels, zeros);
    choose(Label::Plus, labels, others)
}

// A pair of corners that the order exchanges.
#[tactic(auto, unfolding(crate::specs::inner::Picks::inversion))]
fn inverted(a: Label, b: Label) -> usize
    ensures value { result ≡ inversion (weight a) (weight b) }
    ensures upper_bound { result ≤ 1 }
{
    if weight(a) < weight(b) { 1 } else { 0 }
}

// The order exchanges an even number of pairs.
#[tactic(auto, unfolding(crate::specs::inner::Picks::is_even))]
pub fn is_even(labels: [Label; 4]) -> bool
    ensures { result ≡ is_even labels }
{
    let [a, b, c, d] = labels;
    let first = inverted(a, b) + inverted(a, c) + inverted(a, d);
    let rest = inverted(b, c) + inverted(b, d) + inverted(c, d);
    (first + rest) % 2 == 0
}
