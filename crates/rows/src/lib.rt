// The rows that the program `scan` prints: of a page, of its tokens, and of a refusal.
#![tactic(auto)]

ghost use Rattle.std.specs.Prelude.{◌≡◌, ◌++◌, ◌*◌, ◌≤◌, length};
ghost use Rattle.std.proofs.lemmas.List.Edits.{sets};
ghost use Rattle.rules.specs.Records.{token_size, header};
ghost use Rattle.rules.specs.Report.{decimal};
ghost use Rattle.rules.specs.Scan.{page_row, token_row, token_rows, refused_row};

use print::{Lent, Printer};

// A label, and a number in decimal digits after it.
fn put_labelled<P: Printer>(out: &mut P, label: &[u8], n: u32)
    requires { P.fits out.old (length (label.now ++ decimal n)) }
    ensures { P.prints out.old (label.now ++ decimal n) out.new }
{
    out.put_bytes(label);
    print::put_decimal(out, n);
}

// The row of a token.
fn put_row<P: Printer>(out: &mut P, row: &[u32; records::TOKEN])
    requires { P.fits out.old (length (token_row row.now)) }
    ensures { P.prints out.old (token_row row.now) out.new }
{
    let [kind, position, size, line, column] = *row;
    put_labelled(out, b"(tok ", kind);
    put_labelled(out, b" (at ", position);
    put_labelled(out, b" ", line);
    put_labelled(out, b" ", column);
    put_labelled(out, b") (len ", size);
    let closing = b"))\n";
    out.put_bytes(closing);
}

// The rows of k tokens.
fn put_rows<P: Printer>(out: &mut P, tokens: &[u32], k: usize)
    requires held { token_size * k ≤ length tokens.now }
    requires fits { P.fits out.old (length (token_rows k tokens.now)) }
    ensures { P.prints out.old (token_rows k tokens.now) out.new }
{
    let (records, _) = tokens.as_chunks::<{ records::TOKEN }>();
    for record in &records[..k] {
        put_row(out, record);
    }
}

// The row of the page.
fn put_head<P: Printer>(out: &mut P, n: u32, m: u32, k: u32)
    requires { P.fits out.old (length (page_row (header n m k))) }
    ensures { P.prints out.old (page_row (header n m k)) out.new }
{
    put_labelled(out, b"(page (bytes ", n);
    put_labelled(out, b") (lines ", m);
    put_labelled(out, b") (tokens ", k);
    out.put_bytes(b"))\n");
}

// The rows of a text that reads: its page and its tokens.
fn put_records<P: Printer>(out: &mut P, tokens: &[u32], n: u32, m: u32, k: u32)
    requires held { token_size * k ≤ length tokens.now }
    requires fits { P.fits out.old (length (page_row (header n m k) ++ token_rows k tokens.now)) }
    ensures { P.prints out.old (page_row (header n m k) ++ token_rows k tokens.now) out.new }
{
    put_head(out, n, m, k);
    put_rows(out, tokens, k as usize);
}

// The number of a refusal.
fn put_refusal<P: Printer>(out: &mut P, number: u32)
    requires { P.fits out.old (length (refused_row number)) }
    ensures { P.prints out.old (refused_row number) out.new }
{
    put_labelled(out, b"(refused ", number);
    out.put_bytes(b")\n");
}

// The rows of a text that reads, at the front of out; how many bytes they are.
pub fn put_page(out: &mut [u8], tokens: &[u32], n: usize, m: usize, k: usize) -> usize
    requires n_bound { (n ≤ 512) × (m ≤ 512) × (k ≤ 1_024) × (token_size * k ≤ length tokens.now) }
    requires room { length (page_row (header n m k) ++ token_rows k tokens.now) ≤ length out.old }
    ensures value { result ≡ length (page_row (header n m k) ++ token_rows k tokens.now) }
    ensures out_after { out.new ≡ sets out.old 0 (page_row (header n m k) ++ token_rows k tokens.now) }
{
    let mut rows = Lent::new(out);
    put_records(&mut rows, tokens, n as u32, m as u32, k as u32);
    rows.size()
}

// The row of another refusal, at the front of out; how many bytes it is.
pub fn put_refused(out: &mut [u8], number: u32) -> usize
    requires { length (refused_row number) ≤ length out.old }
    ensures value { result ≡ length (refused_row number) }
    ensures out_after { out.new ≡ sets out.old 0 (refused_row number) }
{
    let mut row = Lent::new(out);
    put_refusal(&mut row, number);
    row.size()
}
