// A page's header, the page that a call only reads, and the test that every call on a page begins with.
#![tactic(auto)]

ghost use Rattle.std.specs.Prelude.{◌≡◌, ◌&&◌, leb};
ghost use Rattle.rules.specs.Records.{line_need, token_need};
ghost use Rattle.rules.specs.Page.{fits};
ghost use Rattle.header.specs.Pages.{lent_page};

// So many bytes, lines and tokens.
#[derive(Clone, Copy)]
pub struct Header {
    pub n: u32,
    pub m: u32,
    pub k: u32,
}

impl Header {
    // The header needs no more text, line words and token words than these; the sums are in 64 bits and never wrap.
    #[tactic(auto, using(std::proofs::lemmas::Bool::Decides::nat_tests))]
    pub fn fits(self, text: usize, lines: usize, tokens: usize) -> bool
        ensures { result ≡ (leb self.n text && (leb (line_need self.m) lines && leb (token_need self.k) tokens)) }
    {
        if text < self.n as usize {
            return false;
        }
        if lines < records::LINE * (self.m as usize + 1) {
            return false;
        }
        records::TOKEN * (self.k as usize) <= tokens
    }
}

// A header with the buffers text, lines and tokens, lent to be read: the text for 't, the records for 'r.
#[derive(Clone, Copy)]
pub struct Page<'t, 'r> {
    pub head: Header,
    pub text: &'t [u8],
    pub lines: &'r [u32],
    pub tokens: &'r [u32],
}

impl<'t, 'r> Page<'t, 'r> {
    // The header needs no more than the buffers have.
    #[tactic(auto, unfolding(rules::specs::Page::fits))]
    pub fn fits(self) -> bool
        ensures { result ≡ fits (lent_page self.entry) }
    {
        self.head
            .fits(self.text.len(), self.lines.len(), self.tokens.len())
    }
}
