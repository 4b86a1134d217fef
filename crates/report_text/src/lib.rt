// The report as text: one line for each total. What each line says stands in specs/.
#![tactic(auto)]

ghost use Rattle.std.specs.Prelude.{◌≡◌, ◌++◌, ◌+◌, ◌≤◌, length};
ghost use Rattle.totals.specs.Totals.{name_at, totals_of};
ghost use Rattle.bits.specs.Places.{join};
ghost use Rattle.codec.specs.Text.{decimal};
ghost use Rattle.report_text.specs.Lines.{total_name, line_of, full_line, printed, report_lines, report_of, text_of};
ghost use Rattle.report_text.specs.Private.{AddsText, line_if, no_text};

use totals::{Name, Totals};

// A text: its bytes, zero past them, and how many they are. There is room for a line of 21 bytes for each total, the longest that there is.
#[derive(Clone, Copy)]
pub struct Text {
    pub bytes: [u8; 1092],
    pub size: usize,
}

// The name of the total at a place.
fn name_of(place: usize) -> Name
    ensures { result ≡ name_at place }
{
    match place {
        0..=4 => Name::Kind(place as u8 + 1),
        5..=38 => Name::Number(place as u8 - 5),
        39..=43 => Name::Done(place as u8 - 38),
        44..=48 => Name::Failed(place as u8 - 43),
        49 => Name::CarsIn,
        50 => Name::CarsOut,
        _ => Name::MostCars,
    }
}

// Whether a total is printed.
fn is_printed(name: Name) -> bool
    ensures { result ≡ printed name }
{
    match name {
        Name::Number(n) => answers::in_table(n),
        _ => true,
    }
}

impl Text {
    fn empty() -> Text
        ensures { result ≡ no_text }
    {
        Text {
            bytes: [0; 1092],
            size: 0,
        }
    }

    // Adds src at the end.
    fn put(&mut self, src: &[u8])
        requires { self.old.size + length src.now ≤ length self.old.bytes }
        ensures { AddsText self.old src.now self.new }
    {
        let end = self.size + src.len();
        self.bytes[self.size..end].copy_from_slice(src);
        self.size = end;
    }

    // The same with a number.
    fn put_number(&mut self, n: u64)
        requires { self.old.size + length (decimal n) ≤ length self.old.bytes }
        ensures { AddsText self.old (decimal n) self.new }
    {
        let mut digits = [0u8; 20];
        let k = io::decimal(n, &mut digits);
        self.put(&digits[..k]);
    }

    // The same with the beginning of a name and its number.
    fn put_numbered(&mut self, name: &[u8], n: u8)
        requires { self.old.size + length (name.now ++ decimal n) ≤ length self.old.bytes }
        ensures { AddsText self.old (name.now ++ decimal n) self.new }
    {
        self.put(name);
        self.put_number(n as u64);
    }

    // The same with a total's name.
    fn put_name(&mut self, name: Name)
        requires { self.old.size + length (total_name name) ≤ length self.old.bytes }
        ensures { AddsText self.old (total_name name) self.new }
    {
        match name {
            Name::Kind(n) => self.put_numbered(b"kind-", n),
            Name::Number(n) => self.put_numbered(b"answer-", n),
            Name::Done(n) => self.put_numbered(b"done-", n),
            Name::Failed(n) => self.put_numbered(b"failed-", n),
            Name::CarsIn => self.put(b"cars-in"),
            Name::CarsOut => self.put(b"cars-out"),
            Name::MostCars => self.put(b"most-cars"),
        }
    }

    // The same with a total's line.
    fn put_line(&mut self, name: Name, value: u32)
        requires { self.old.size + length (line_of name value) ≤ length self.old.bytes }
        ensures { AddsText self.old (line_of name value) self.new }
    {
        self.put_name(name);
        self.put(b" ");
        self.put_number(value as u64);
        self.put(b"\n");
    }

    // The line of the total at a place, if it is printed.
    fn put_if(&mut self, place: usize, value: u32)
        requires { self.old.size + 21 ≤ length self.old.bytes }
        ensures { (AddsText self.old (line_if place value) self.new) × (self.new.size ≤ self.old.size + 21) }
    {
        let name = name_of(place);
        if is_printed(name) {
            self.put_line(name, value);
        }
    }

    // The lines of all totals that are printed.
    fn put_lines(&mut self, counts: &[u32; 52])
        requires { (self.old.size ≡ 0) × (1092 ≤ length self.old.bytes) }
        ensures { AddsText self.old (join (report_lines (totals_of counts.now))) self.new }
    {
        for place in 0..52 {
            self.put_if(place, counts[place]);
        }
    }

    // The line that tells that a total is full.
    fn put_full(&mut self, full: Name)
        requires { self.old.size + (length (total_name full) + 6) ≤ length self.old.bytes }
        ensures { AddsText self.old (full_line full) self.new }
    {
        self.put(b"full ");
        self.put_name(full);
        self.put(b"\n");
    }
}

// What the report prints: a line for each total in force; where the one at a place is full, its name alone.
pub fn report(t: Totals, full: Option<u8>) -> Text
    ensures { result ≡ text_of (report_of t full) }
{
    let mut text = Text::empty();
    if let Some(place) = full {
        text.put_full(name_of(place as usize));
        return text;
    }
    text.put_lines(&t.counts);
    text
}
