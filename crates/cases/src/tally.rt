// What was counted of the records.
use std::io;
use std::io::Write;
use text::print_line;

// How often each number of document 01 was answered; how many records there were, how many of them
// differ, and how many calls of each kind agree.
#[derive(Drop)]
pub(crate) struct Tally {
    answered: [u64; 13],
    records: u64,
    differences: u64,
    fillings: u64,
    places: u64,
    files: u64,
}

impl Tally {
    pub(crate) fn new() -> Self {
        Tally {
            answered: [0; 13],
            records: 0,
            differences: 0,
            fillings: 0,
            places: 0,
            files: 0,
        }
    }

    pub(crate) fn fillings(&self) -> u64 {
        self.fillings
    }

    pub(crate) fn count_record(&mut self) {
        self.records = self.records.wrapping_add(1);
    }

    pub(crate) fn count_difference(&mut self) {
        self.differences = self.differences.wrapping_add(1);
    }

    pub(crate) fn count_filling(&mut self, number: usize) {
        self.fillings = self.fillings.wrapping_add(1);
        self.count_answers(number, 1);
    }

    pub(crate) fn count_file(&mut self, number: usize) {
        self.files = self.files.wrapping_add(1);
        self.count_answers(number, 1);
    }

    pub(crate) fn count_places(&mut self, number: usize, questions: u64) {
        self.places = self.places.wrapping_add(questions);
        self.count_answers(number, questions);
    }

    // A number was answered n times more.
    fn count_answers(&mut self, number: usize, n: u64) {
        if number < 13 {
            self.answered[number] = self.answered[number].wrapping_add(n);
        }
    }

    // How many calls agree and what they answered, or the record that differs.
    pub(crate) fn print<W: Write>(&self, output: &mut W) -> io::Result<()> {
        if self.differences != 0 {
            return print_line(output, b"record ", self.records, b" differs\n");
        }
        print_line(output, b"fillings ", self.fillings, b" agree\n")?;
        print_line(output, b"places ", self.places, b" agree\n")?;
        print_line(output, b"files ", self.files, b" agree\n")?;
        for (number, times) in self.answered.iter().enumerate() {
            print_line(output, b"answered ", number as u64, b": ")?;
            print_line(output, b"", *times, b"\n")?;
        }
        Ok(())
    }
}
