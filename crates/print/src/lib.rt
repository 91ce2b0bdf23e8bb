// Bytes printed one field after another: counted, or written into a buffer that is lent. A text is printed by one function at every
// printer. It is no `Display`: what `write!` promises holds of an answer `Ok` alone, and a count or a buffer that is long enough never fails.
#![tactic(auto)]

ghost use Rattle.std.specs.Prelude.{◌≡◌, ℕ, [], ◌+◌, ◌-◌, ◌≤◌, ◌<◌, List, length, replicate};
ghost use Rattle.rules.specs.Report.{digit, digits_in, places_from, decimal};
ghost use Rattle.print.specs.Printers.{PrinterLaws};

// Where printed bytes go.
pub trait Printer {
    // so many bytes more fit
    ghost fits: { Self → ℕ → Type 0 };

    // the printer before, the bytes that are printed, and the printer after
    ghost prints: { Self → List ℕ → Self → Type 0 };

    ghost laws: { PrinterLaws fits prints };

    // These bytes.
    fn put_bytes(&mut self, bytes: &[u8])
        requires { fits self.old (length bytes.now) }
        ensures { prints self.old bytes.now self.new };

    // One byte, so many times.
    fn put_fill(&mut self, byte: u8, count: usize)
        requires { fits self.old count }
        ensures { prints self.old (replicate count byte) self.new };

    // So many digits of a number, in base 10 or 16.
    fn put_digits(&mut self, base: u32, places: usize, n: u32)
        requires { (2 ≤ base) × (base ≤ 16) × fits self.old places }
        ensures { prints self.old (digits_in base places n []) self.new };
}

// Counts the bytes, and writes nothing.
#[derive(Clone, Copy)]
pub struct Count {
    pub size: usize,
}

impl Printer for Count {
    ghost use Rattle.print.specs.Printers.{count_fits, Counts};
    ghost use Rattle.print.specs.Counting.{count_laws};

    ghost fits = { count_fits };

    ghost prints = { Counts };

    ghost laws = { count_laws };

    fn put_bytes(&mut self, bytes: &[u8]) {
        self.size += bytes.len();
    }

    fn put_fill(&mut self, _byte: u8, count: usize) {
        self.size += count;
    }

    fn put_digits(&mut self, _base: u32, places: usize, _n: u32) {
        self.size += places;
    }
}

// Writes the bytes into a buffer: `size` of them stand at its front so far.
#[derive(Drop)]
pub struct Lent<'a> {
    out: &'a mut [u8],
    size: usize,
}

impl Printer for Lent<'_> {
    ghost use Rattle.print.specs.Printers.{lent_fits, Writes};
    ghost use Rattle.print.specs.Lending.{lent_laws};

    ghost fits = { lent_fits };

    ghost prints = { Writes };

    ghost laws = { lent_laws };

    fn put_bytes(&mut self, bytes: &[u8]) {
        let next = self.size + bytes.len();
        copies::copy_bytes(self.out, self.size, bytes);
        self.size = next;
    }

    fn put_fill(&mut self, byte: u8, count: usize) {
        let next = self.size + count;
        self.out[self.size..next].fill(byte);
        self.size = next;
    }

    fn put_digits(&mut self, base: u32, places: usize, n: u32) {
        let next = self.size + places;
        write_digits(&mut self.out[self.size..next], base, n);
        self.size = next;
    }
}

impl<'a> Lent<'a> {
    pub fn new(out: &'a mut [u8]) -> Lent<'a>
        ensures same { result.out.ghost_name ≡ out.entry.ghost_name }
        ensures whole { result.out.now ≡ out.old }
        ensures empty { result.size ≡ 0 }
    {
        Lent { out, size: 0 }
    }

    pub fn size(&self) -> usize
        ensures { result ≡ self.now.size }
    {
        self.size
    }
}

// How many decimal digits a number has.
pub fn decimal_places(n: u32) -> usize
    ensures { result ≡ places_from n n }
{
    match n.checked_ilog10() {
        Some(k) => k as usize + 1,
        None => 1,
    }
}

// A digit: 0 to 9, A to F.
fn digit_of(d: u32) -> u8
    requires { d < 16 }
    ensures { result ≡ digit d }
{
    if d < 10 {
        return (48 + d) as u8;
    }
    (55 + d) as u8
}

// The last digits of a number, as many as stand in out. std's formatting writes all of them, so a field of four
// digits would be longer for a number above 9999.
fn write_digits(out: &mut [u8], base: u32, n: u32)
    requires { (2 ≤ base) × (base ≤ 16) }
    ensures { out.new ≡ digits_in base (length out.old) n [] }
{
    let mut rest = n;
    for i in (0..out.len()).rev() {
        out[i] = digit_of(rest % base);
        rest /= base;
    }
}

// A number in decimal digits.
pub fn put_decimal<P: Printer>(out: &mut P, n: u32)
    requires { P.fits out.old (length (decimal n)) }
    ensures { P.prints out.old (decimal n) out.new }
{
    out.put_digits(10, decimal_places(n), n);
}
