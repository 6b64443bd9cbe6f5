// A table of bits in words of 64: set one, ask one, count those before one.
#![tactic(auto)]

ghost use Rattle.std.specs.Prelude.{◌≡◌, ◌+◌, ◌*◌, ◌<◌, ◌^◌, length};
ghost use Rattle.basics.specs.Lists.{count};
ghost use Rattle.bitmap.specs.inner.Bits.{bit, marked, Adds, Clears, Ranks};

// Whether a bit of a word is set.
#[tactic(auto, unfolding(crate::specs::inner::Bits::bit))]
pub fn is_set(word: u64, j: usize) -> bool
    requires { j < 64 }
    ensures { result ≡ bit word j }
{
    (word >> j) % 2 == 1
}

// How many bits of a word are set.
fn ones(word: u64) -> u32
    ensures { result ≡ count (bit word) 64 }
{
    word.count_ones()
}

// How many bits of a word are set below one.
fn ones_below(word: u64, j: usize) -> u32
    requires { j < 64 }
    ensures { result ≡ count (bit word) j }
{
    u64::count_ones(word & ((1 << j) - 1))
}

// The functions here take words of any length; the methods below are theirs for a table of a length that its type
// says, so that its users state no lengths.
#[tactic(auto, unfolding(crate::specs::inner::Bits::marked))]
pub fn is_marked(bits: &[u64], k: usize) -> bool
    requires { k < 64 * length bits.now }
    ensures { result ≡ marked bits.now k }
{
    is_set(bits[k / 64], k % 64)
}

pub fn mark(bits: &mut [u64], k: usize)
    requires { k < 64 * length bits.old }
    ensures { Adds k bits.old bits.new }
{
    bits[k / 64] |= 1 << (k % 64);
}

pub fn clear(bits: &mut [u64])
    ensures { Clears bits.old bits.new }
{
    bits.fill(0);
}

// Writes at each word how many bits are set before it, counted on from a first number; answers that
// of the whole table.
pub fn rank(bits: &[u64], ranks: &mut [u32], first: u32) -> u32
    requires ranks_len { length ranks.old ≡ length bits.now }
    requires bits_bound { first + 64 * length bits.now < 2 ^ 32 }
    ensures value { result ≡ first + count (marked bits.now) (64 * length bits.now) }
    ensures ranks { Ranks bits.now first ranks.new }
{
    let mut next = first;
    for (w, rank) in ranks.iter_mut().enumerate() {
        *rank = next;
        next += ones(bits[w]);
    }
    next
}

// The number of a bit: how many are set before it, counted on from the first number.
pub fn number_at(bits: &[u64], ranks: &[u32], first: u32, k: usize) -> u32
    requires k_bound { k < 64 * length bits.now }
    requires ranks { Ranks bits.now first ranks.now }
    requires bits_bound { first + 64 * length bits.now < 2 ^ 32 }
    ensures { result ≡ first + count (marked bits.now) k }
{
    ranks[k / 64] + ones_below(bits[k / 64], k % 64)
}

// The words of a table, the first bit lowest in the first one.
#[derive(Drop)]
pub struct Bits<const N: usize> {
    pub words: [u64; N],
    ghost long: { length words ≡ N },
}

impl<const N: usize> Bits<N> {
    pub fn is_marked(&self, k: usize) -> bool
        requires { k < 64 * N }
        ensures { result ≡ marked self.now.words k }
    {
        is_marked(&self.words, k)
    }

    pub fn mark(&mut self, k: usize)
        requires { k < 64 * N }
        ensures { Adds k self.old.words self.new.words }
    {
        mark(&mut self.words, k);
    }

    pub fn clear(&mut self)
        ensures { Clears self.old.words self.new.words }
    {
        clear(&mut self.words);
    }

    // How many bits are set.
    pub fn count(&self) -> u32
        requires { 64 * N < 2 ^ 32 }
        ensures { result ≡ count (marked self.now.words) (64 * N) }
    {
        let mut set = 0;
        for word in &self.words {
            set += ones(*word);
        }
        set
    }

    pub fn rank(&self, ranks: &mut [u32; N], first: u32) -> u32
        requires { first + 64 * N < 2 ^ 32 }
        ensures value { result ≡ first + count (marked self.now.words) (64 * N) }
        ensures ranks { Ranks self.now.words first ranks.new }
    {
        rank(&self.words, ranks, first)
    }
}

// A table and the numbers of its bits: the first number is that of the first bit that is set.
#[derive(Clone, Copy)]
pub struct Ranking<'a, const N: usize> {
    pub bits: &'a Bits<N>,
    pub ranks: &'a [u32; N],
    pub first: u32,
    ghost ranked: { Ranks bits.now.words first ranks.now },
    ghost bound: { first + 64 * N < 2 ^ 32 },
}

impl<'a, const N: usize> Ranking<'a, N> {
    // The number of a bit.
    pub fn number(self, k: usize) -> u32
        requires { k < 64 * N }
        ensures { result ≡ self.entry.first + count (marked self.entry.bits.now.words) k }
    {
        let bits = self.bits;
        let ranks = self.ranks;
        number_at(&bits.words, ranks, self.first, k)
    }
}
