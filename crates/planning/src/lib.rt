// What an edit will write, found without writing: where reading again begins, where it stops, and what is kept.
#![tactic(auto)]

ghost use Rattle.std.specs.Prelude.{◌≡◌, true, ◌+◌, ◌-◌, ◌*◌, ◌≤◌, ◌<◌, length, take};
ghost use Rattle.rules.specs.Limits.{max_levels};
ghost use Rattle.rules.specs.Reading.{count_lf};
ghost use Rattle.rules.specs.Page.{fits};
ghost use Rattle.rules.specs.Records.{line_size};
ghost use Rattle.header.specs.Pages.{lent_page};
ghost use Rattle.records.specs.Words.{line_word};
ghost use Rattle.plans.specs.Plans.{lent_edit, edited_text, PlanIs};
ghost use Rattle.planning.specs.Starts.{is_usable, begin_line, RereadFrom};

use header::Page;
use plans::{Edit, Plan};
use records::{Nowhere, Place, State};
use refusals::{Refusal, Unread};
use rereading::{Reached, StopRule};
use tables::Tables;

// The LFs of a part; a count in one byte is compiled to sums of vectors.
#[tactic(auto, unfolding(rules::specs::Reading::count_lf))]
fn count_part(part: &[u8]) -> u8
    requires { length part.now ≤ 255 }
    ensures { result ≡ count_lf part.now }
{
    let mut n: u8 = 0;
    for i in 0..part.len() {
        n += (part[i] == b'\n') as u8;
    }
    n
}

// The LFs of the first a bytes, part by part.
#[tactic(auto, unfolding(rules::specs::Reading::count_lf))]
pub fn count_lf(text: &[u8], a: usize) -> usize
    requires { a ≤ length text.now }
    ensures { result ≡ count_lf (take a text.now) }
{
    let mut n: usize = 0;
    for part in text[..a].chunks(128) {
        n += count_part(part) as usize;
    }
    n
}

// Reading can begin at record i.
#[tactic(auto, using(std::proofs::lemmas::Bool::Decides::nat_tests))]
pub fn usable(lines: &[u32], i: usize, k: usize, a: usize) -> bool
    requires { (i ≤ 1_048_576) × (line_size * (i + 1) ≤ length lines.now) }
    ensures { result ≡ is_usable lines.now i k a }
{
    let at = records::LINE * i;
    let start = lines[at] as usize;
    if a < start {
        return false;
    }
    if start < i {
        return false;
    }
    if k < lines[at + 1] as usize {
        return false;
    }
    if start < lines[at + 2] as usize {
        return false;
    }
    lines[at + 4] as usize <= records::LEVELS
}

// The line where reading again begins, for an edit from byte a on; none where the page is not faithful.
#[tactic(auto, using(std::proofs::lemmas::Bool::Decides::nat_tests))]
fn begin_line(page: Page, a: usize) -> Option<usize>
    requires { (a ≤ length page.text.now) × (line_size * (page.head.m + 1) ≤ length page.lines.now) }
    ensures { result ≡ begin_line (lent_page page.entry) a }
{
    let m = page.head.m as usize;
    let k = page.head.k as usize;
    if 1_048_576 < m {
        return None;
    }
    if 2_097_152 < k {
        return None;
    }
    let i = count_lf(page.text, a);
    if m < i {
        return None;
    }
    if usable(page.lines, i, k, a) {
        return Some(i);
    }
    None
}

// The lines of the edited text from old line i on, read again from its state up to the stop rule, under the barge's limits.
fn reread_from(
    page: Page,
    edited: &[u8],
    edit: Edit,
    i: usize,
    state: &mut State,
) -> Result<Reached, Unread>
    requires within { (i ≤ page.head.m) × (line_size * (page.head.m + 1) ≤ length page.lines.now) }
    requires start_bound { (i ≤ line_word page.lines.now i 0) × ((line_word page.lines.now i 0 ≤ length edited.now) × (length edited.now ≤ 1_048_576)) }
    requires edit_bound { (edit.a ≤ edit.b) × (edit.b ≤ page.head.n) }
    requires state_bound { (state.old.depth ≤ line_word page.lines.now i 0) × (length state.old.widths ≤ max_levels) }
    ensures { RereadFrom (lent_page page.entry) edited.now (lent_edit edit.entry) i state.old state.new result }
{
    let start = page.lines[records::LINE * i];
    let place = Place {
        line: i,
        first: 0,
        start,
    };
    let stop = StopRule {
        count: page.head.m as usize,
        from: i,
        end: edit.b,
        kept: edit.a + edit.w.len(),
    };
    let tables = Tables::new();
    let limits = refusals::barge_limits().line();
    let rest = &edited[start as usize..];
    rereading::read_on(
        &tables,
        rest,
        page.lines,
        stop,
        &mut Nowhere,
        &mut Nowhere,
        place,
        limits,
        state,
    )
}

// What an edit of a page that fits writes; `edited` is the edited text.
pub fn plan_edit(page: Page, edited: &[u8], edit: Edit) -> Result<Plan, Refusal>
    requires page_fits { fits (lent_page page) ≡ true }
    requires in_range { (edit.a ≤ edit.b) × ((edit.b ≤ page.head.n) × (length edited.now ≤ 1_048_576)) }
    requires edited_value { edited.now ≡ edited_text (take page.head.n page.text.now) (lent_edit edit) }
    ensures { PlanIs (lent_page page.entry) (lent_edit edit.entry) result }
{
    let Some(i) = begin_line(page, edit.a) else {
        return Err(Refusal::Unfit);
    };
    let begin = plans::before_line(page.lines, i);
    let mut state = records::load_state(page.lines, i);
    match reread_from(page, edited, edit, i, &mut state)? {
        Reached::Stop(read, j) => plans::plan_stop(page, begin, read, j),
        Reached::End(read) => {
            plans::plan_end(page, page.head.n as usize, begin, read, state.levels())
        }
    }
}
