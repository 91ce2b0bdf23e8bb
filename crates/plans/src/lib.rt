// What an edit will write: where its records go, and whether there is room for them.
#![tactic(auto)]

ghost use Rattle.std.specs.Prelude.{◌≡◌, ◌+◌, ◌*◌, ◌≤◌, length};
ghost use Rattle.rules.specs.Records.{line_size};
ghost use Rattle.header.specs.Pages.{header_of, lent_page};
ghost use Rattle.plans.specs.Plans.{moved_to, Small, before_line, roomed, stop_plan, stop_answer, end_plan, end_answer};

use header::Page;
use records::Counts;
use refusals::{Buffer, Refusal};

// Bytes a to b of a text are to become w.
#[derive(Clone, Copy)]
pub struct Edit<'a> {
    pub a: usize,
    pub b: usize,
    pub w: &'a [u8],
}

// Where an accepted edit writes. `begin` is what stands before the lines that are read again, and `read` is what these have; where the end's record
// is written anew, `end` is how many levels are open there; `kept` is what stood on the page before the tail that is kept.
#[derive(Clone, Copy)]
pub struct Plan {
    pub begin: Counts,
    pub read: Counts,
    pub end: Option<usize>,
    pub kept: Counts,
}

impl Plan {
    // What stands before the kept tail afterwards.
    pub fn moved(self) -> Counts
        requires { Small self }
        ensures { result ≡ moved_to self }
    {
        Counts {
            bytes: self.begin.bytes + self.read.bytes,
            lines: self.begin.lines + self.read.lines + self.end.is_some() as usize,
            tokens: self.begin.tokens + self.read.tokens + self.end.unwrap_or(0),
        }
    }
}

// What stands before line i of a page, by its record.
pub fn before_line(lines: &[u32], i: usize) -> Counts
    requires { (i ≤ 1_048_576) × (line_size * (i + 1) ≤ length lines.now) }
    ensures { result ≡ before_line lines.now i }
{
    let at = records::LINE * i;
    Counts {
        bytes: lines[at] as usize,
        lines: i,
        tokens: lines[at + 1] as usize,
    }
}

// A plan with room for its records on a page.
#[tactic(auto, using(std::proofs::lemmas::Bool::Decides::nat_tests))]
fn plan_room(p: Plan, page: Page) -> Result<Plan, Refusal>
    requires small { Small p }
    requires kept { (page.head.m ≤ 1_048_576) × ((p.kept.lines ≤ page.head.m + 1) × (p.kept.tokens ≤ page.head.k)) }
    ensures { result ≡ roomed (lent_page page.entry) p }
{
    let to = p.moved();
    let line_records = to.lines + (page.head.m as usize + 1 - p.kept.lines);
    let token_records = to.tokens + (page.head.k as usize - p.kept.tokens);
    if 2_097_152 < token_records {
        return Err(Refusal::Unfit);
    }
    if page.lines.len() < records::LINE * line_records {
        return Err(Refusal::Short(Buffer::Lines, records::LINE * line_records));
    }
    if page.tokens.len() < records::TOKEN * token_records {
        return Err(Refusal::Short(Buffer::Tokens, records::TOKEN * token_records));
    }
    Ok(p)
}

// The plan at a stop, on a page: after what was read, at the old line j. Refused where the old record cannot be a faithful page's.
#[tactic(auto, using(std::proofs::lemmas::Bool::Decides::nat_tests))]
pub fn plan_stop(page: Page, begin: Counts, read: Counts, j: usize) -> Result<Plan, Refusal>
    requires within { (j ≤ page.head.m) × ((page.head.m ≤ 1_048_576) × (line_size * (page.head.m + 1) ≤ length page.lines.now)) }
    requires small { Small (stop_plan page.lines.now begin read j) }
    ensures { result ≡ stop_answer (lent_page page.entry) begin read j }
{
    let p = Plan {
        begin,
        read,
        end: None,
        kept: before_line(page.lines, j),
    };
    if (page.head.k as usize) < p.kept.tokens {
        return Err(Refusal::Unfit);
    }
    plan_room(p, page)
}

// The plan at the end of an edited text, on a page whose text had n bytes: after what was read, with so many levels open.
pub fn plan_end(
    page: Page,
    n: usize,
    begin: Counts,
    read: Counts,
    levels: usize,
) -> Result<Plan, Refusal>
    requires within { page.head.m ≤ 1_048_576 }
    requires small { Small (end_plan (header_of page.head) n begin read levels) }
    ensures { result ≡ end_answer (lent_page page.entry) n begin read levels }
{
    let p = Plan {
        begin,
        read,
        end: Some(levels),
        kept: Counts {
            bytes: n,
            lines: page.head.m as usize + 1,
            tokens: page.head.k as usize,
        },
    };
    plan_room(p, page)
}
