// The records of an accepted edit, written by its plan.
#![tactic(auto)]

ghost use Rattle.std.specs.Prelude.{◌≡◌, ◌+◌, ◌-◌, ◌*◌, ◌≤◌, length};
ghost use Rattle.std.proofs.lemmas.List.Edits.{sets};
ghost use Rattle.rules.specs.Limits.{max_levels};
ghost use Rattle.rules.specs.Records.{line_size, token_size, line_records, token_records};
ghost use Rattle.records.specs.Sinks.{Writes};
ghost use Rattle.plans.specs.Plans.{moved_to, reread, ReadsAs, new_lines, Planned, Roomy};
ghost use Rattle.writing.specs.Writes.{line_tail, token_tail};

use plans::Plan;
use records::{Place, State, Written};
use tables::Tables;

// The lines of the edited text that a plan reads again, from the state before them, and the end where the plan writes it anew.
fn write_lines<'a>(
    edited: &[u8],
    lines: &mut Written<'a>,
    tokens: &mut Written<'a>,
    p: Plan,
    state: &mut State,
)
    requires small { let to = moved_to p in (length edited.now ≤ 1_048_576) × ((to.bytes ≤ length edited.now) × ((to.lines ≤ 4_194_304) × (to.tokens ≤ 3_000_000))) }
    requires state_bound { (p.begin.lines ≤ p.begin.bytes) × ((state.old.depth ≤ p.begin.bytes) × (length state.old.widths ≤ max_levels)) }
    requires reads_as { ReadsAs p (reread edited.now state.old p) }
    requires room { let to = moved_to p in (line_size * to.lines ≤ length lines.old.words.now) × (token_size * to.tokens ≤ length tokens.old.words.now) }
    ensures lines_taken { Writes lines.old lines.new (line_size * p.begin.lines) (line_records p.begin.bytes p.begin.tokens (new_lines p.end (reread edited.now state.old p))) }
    ensures tokens_taken { Writes tokens.old tokens.new (token_size * p.begin.tokens) (token_records p.begin.bytes (p.begin.lines + 1) (new_lines p.end (reread edited.now state.old p))) }
{
    let tables = Tables::new();
    let limits = refusals::barge_limits().line();
    let size = p.begin.bytes + p.read.bytes;
    let place = Place {
        line: p.begin.lines,
        first: p.begin.tokens,
        start: p.begin.bytes as u32,
    };
    let part = &edited[p.begin.bytes..size];
    let _ = rereading::read_to_end(&tables, part, lines, tokens, place, limits, state);
    if p.end.is_some() {
        let end = Place {
            line: p.begin.lines + p.read.lines,
            first: p.begin.tokens + p.read.tokens,
            start: size as u32,
        };
        lines::put_end(lines, tokens, end, state);
    }
}

// The kept records are moved, and the lines read again are written before them.
pub fn write_records(
    edited: &[u8],
    lines: &mut [u32],
    tokens: &mut [u32],
    m: usize,
    k: usize,
    p: Plan,
)
    requires edited_len_bound { (length edited.now ≤ 1_048_576) × ((line_size * (m + 1) ≤ length lines.old) × (token_size * k ≤ length tokens.old)) }
    requires planned { Planned edited.now lines.old m k p }
    requires roomy { Roomy m k (length lines.old) (length tokens.old) p }
    ensures lines_after { lines.new ≡ sets lines.old (line_size * p.begin.lines) (line_tail edited.now lines.old m p) }
    ensures tokens_after { tokens.new ≡ sets tokens.old (token_size * p.begin.tokens) (token_tail edited.now lines.old tokens.old k p) }
{
    let to = p.moved();
    let mut state = records::load_state(lines, p.begin.lines);
    moving::move_tokens(
        tokens,
        p.kept.tokens,
        to.tokens,
        k - p.kept.tokens,
        p.kept.bytes as u32,
        to.bytes as u32,
        p.kept.lines as u32 + 1,
        to.lines as u32 + 1,
    );
    moving::move_lines(
        lines,
        p.kept.lines,
        to.lines,
        m + 1 - p.kept.lines,
        p.kept.bytes as u32,
        to.bytes as u32,
        p.kept.tokens as u32,
        to.tokens as u32,
    );
    let mut line_sink = Written::new(lines);
    let mut token_sink = Written::new(tokens);
    write_lines(edited, &mut line_sink, &mut token_sink, p, &mut state);
}
