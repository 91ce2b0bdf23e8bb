// What the program `scan` prints for a text: the rows of its page and tokens, the message of its failure, or its refusal.
#![tactic(auto)]

ghost use Rattle.std.specs.Prelude.{◌≡◌, ◌++◌, ◌≤◌, length};
ghost use Rattle.std.proofs.lemmas.List.Edits.{sets};
ghost use Rattle.rules.specs.Lists.{ascii, overwrite};
ghost use Rattle.rules.specs.Scan.{scan_output};
ghost use Rattle.message.specs.Messages.{message_in, Printable};
ghost use Rattle.scanning.specs.Shown.{Shows};

// The message of a failure, and LF, at the front of out; how many bytes they are.
fn put_failure(out: &mut [u8], text: &[u8], f: refusals::FailureRecord) -> usize
    requires printable { Printable text.now f }
    requires room { length (message_in text.now f ++ ascii "\n") ≤ length out.old }
    ensures value { result ≡ length (message_in text.now f ++ ascii "\n") }
    ensures out_after { out.new ≡ sets out.old 0 (message_in text.now f ++ ascii "\n") }
{
    let size = message::put_message(out, text, f);
    out[size] = b'\n';
    size + 1
}

// Why a text of at most 512 bytes does not read: the message of its failure, or the number of another refusal.
fn put_unread(out: &mut [u8], text: &[u8], u: refusals::Unread) -> usize
    requires in_bounds { (65_536 ≤ length out.old) × (length text.now ≤ 512) }
    requires shows { Shows text.now u }
    ensures value { result ≡ length (scan_output text.now) }
    ensures out_after { out.new ≡ overwrite (scan_output text.now) out.old }
{
    match u {
        refusals::Unread::TooLong(number, _) => rows::put_refused(out, number),
        refusals::Unread::Malformed(_) => rows::put_refused(out, 2),
        refusals::Unread::Fails(f) => put_failure(out, text, f),
        refusals::Unread::AtLine(number, _) => rows::put_refused(out, number),
    }
}

// What `scan` prints for a text, at the front of out; its length. 65,536 bytes hold it for every text. So do 513 line records and 1,024
// token records for a text of 512 bytes: no refusal occurs but those of the text. The sizes are fixed, since the controller has no heap.
#[tactic(auto, using(crate::proofs::Scans::long_size, crate::proofs::Scans::long_over))]
fn put_scan(out: &mut [u8], text: &[u8]) -> usize
    requires { 65_536 ≤ length out.old }
    ensures value { result ≡ length (scan_output text.now) }
    ensures out_after { out.new ≡ overwrite (scan_output text.now) out.old }
{
    if 512 < text.len() {
        return rows::put_refused(out, 1);
    }
    let mut lines: [u32; 10_773] = [0; 10_773];
    let mut tokens: [u32; 5_120] = [0; 5_120];
    match reading::read(text, &mut lines, &mut tokens) {
        Ok(counts) => rows::put_page(out, &tokens, counts.bytes, counts.lines, counts.tokens),
        Err(refusals::Refusal::Reading(u)) => put_unread(out, text, u),
        Err(_) => rows::put_refused(out, 5),
    }
}

// The same, in a buffer that is long enough.
pub fn scan(text: &[u8], out: &mut [u8; 65_536]) -> usize
    ensures value { result ≡ length (scan_output text.now) }
    ensures out_after { out.new ≡ overwrite (scan_output text.now) out.old }
{
    put_scan(out, text)
}
