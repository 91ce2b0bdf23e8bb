// Bytes copied from one buffer to another, one at a time: `copy_from_slice` from one lent buffer to another, over parts of any length, is a call of
// `memmove`, which the archive for C would ask for from outside.
#![tactic(auto)]

ghost use Rattle.std.specs.Prelude.{◌≡◌, ◌+◌, ◌-◌, ◌≤◌, length, take, drop};
ghost use Rattle.std.proofs.lemmas.List.Edits.{sets};
ghost use Rattle.rules.specs.Lists.{overwrite};
ghost use Rattle.rules.specs.StopRule.{edited};

// All of src at byte `at` of dst.
pub fn copy_bytes(dst: &mut [u8], at: usize, src: &[u8])
    requires { at + length src.now ≤ length dst.old }
    ensures { dst.new ≡ sets dst.old at src.now }
{
    for j in 0..src.len() {
        dst[at + j] = src[j];
    }
}

// The first n bytes of the text, of which a..b become w, at the spare's front.
pub fn splice(text: &[u8], spare: &mut [u8], n: usize, a: usize, b: usize, w: &[u8])
    requires { (a ≤ b) × (b ≤ n) × (n ≤ length text.now) × (a + length w.now + (n - b) ≤ length spare.old) }
    ensures { spare.new ≡ overwrite (edited (take n text.now) (record { a = a; b = b; w = w.now })) spare.old }
{
    copy_bytes(spare, 0, &text[..a]);
    copy_bytes(spare, a, w);
    copy_bytes(spare, a + w.len(), &text[b..n]);
}

// Bytes a..n of the spare, at the same place of the text.
pub fn copy_back(spare: &[u8], text: &mut [u8], a: usize, n: usize)
    requires { (a ≤ n) × (n ≤ length spare.now) × (n ≤ length text.old) }
    ensures { text.new ≡ sets text.old a (drop a (take n spare.now)) }
{
    copy_bytes(text, a, &spare[a..n]);
}
