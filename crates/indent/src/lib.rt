// What stands at the start of a line: its leading spaces and tabs, its width, and whether it is blank or a comment.
#![tactic(auto)]

ghost use Rattle.std.specs.Prelude.{◌≡◌, ◌||◌, ◌≤◌, length, drop};
ghost use Rattle.rules.specs.Lists.{run};
ghost use Rattle.rules.specs.Tables.{is_blank};
ghost use Rattle.rules.specs.Line.{is_space, is_tab, indent_width, indent_size, is_blank_line};
ghost use Rattle.indent.specs.Indents.{ends_or_comment};

use tables::{Run, Tables};

// The indent width, leading spaces count 1, tabs 4, of a line that begins with so many spaces.
pub fn compute_indent(line: &[u8], spaces: usize) -> u32
    requires { (length line.now ≤ 1_048_576) × (spaces ≡ run is_space line.now) }
    ensures { result ≡ indent_width line.now }
{
    let mut width = spaces as u32;
    for i in spaces..line.len() {
        match line[i] {
            b' ' => width += 1,
            b'\t' => width += 4,
            _ => return width,
        }
    }
    width
}

// A space or a tab.
#[tactic(auto, using(std::proofs::lemmas::Bool::Decides::nat_tests), unfolding(rules::specs::Line::is_space, rules::specs::Line::is_tab))]
fn is_indent(b: u8) -> bool
    ensures { result ≡ (is_space b || is_tab b) }
{
    matches!(b, b' ' | b'\t')
}

// The leading spaces and tabs.
pub fn leading_indent_bytes(line: &[u8]) -> usize
    ensures { result ≡ indent_size line.now }
{
    for i in 0..line.len() {
        if !is_indent(line[i]) {
            return i;
        }
    }
    line.len()
}

// A space, a tab or a CR.
#[tactic(auto, using(std::proofs::lemmas::Bool::Decides::nat_tests), unfolding(rules::specs::Tables::is_blank, rules::specs::Lists::elem, rules::specs::Lists::any))]
fn is_blank(b: u8) -> bool
    ensures { result ≡ is_blank b }
{
    matches!(b, b' ' | b'\t' | b'\r')
}

// Where the leading spaces, tabs and CRs end, of a line that begins with so many spaces.
fn blank_end(line: &[u8], spaces: usize) -> usize
    requires { spaces ≡ run is_space line.now }
    ensures { result ≡ run is_blank line.now }
{
    for i in spaces..line.len() {
        if !is_blank(line[i]) {
            return i;
        }
    }
    line.len()
}

// The spaces at a line's start; most lines have none, and then no run is looked for.
pub fn leading_spaces(tables: &Tables, line: &[u8]) -> usize
    ensures { result ≡ run is_space line.now }
{
    if line.len() == 0 || line[0] != b' ' {
        return 0;
    }
    runs::run_end(tables, line, 0, Run::Spaces)
}

// At `at` the line ends or a comment begins.
fn ends_at(line: &[u8], at: usize) -> bool
    requires { at ≤ length line.now }
    ensures { result ≡ ends_or_comment (drop at line.now) }
{
    at == line.len() || line[at] == b'#' || search::begins_at(line, at, b"//")
}

// After its blanks the line, which begins with so many spaces, is empty or begins with `#` or `//`.
pub fn line_is_blank_or_comment(line: &[u8], spaces: usize) -> bool
    requires { spaces ≡ run is_space line.now }
    ensures { result ≡ is_blank_line line.now }
{
    ends_at(line, blank_end(line, spaces))
}
