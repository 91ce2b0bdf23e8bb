// The search through the spellings of keywords, by the lent tables.
#![tactic(auto)]

ghost use Rattle.std.specs.Prelude.{◌≡◌};
ghost use Rattle.rules.specs.Tables.{keywords, word_kind};

use tables::{Tables, kinds};

// The kind of a word: that of the keyword which it spells, otherwise an identifier. Rows of another first letter are not looked at; a row of
// another length, or with a byte that differs, is passed; the first that agrees in length and every byte ends the search.
// The loops are those that document 01 names, left or continued by label and yielding the kind, so they count rows and bytes by hand.
pub fn word_kind(tables: &Tables, word: &[u8]) -> u32
    ensures { result ≡ word_kind keywords word.now }
{
    let n = word.len();
    if n == 0 {
        return kinds::IDENT;
    }
    let letter = (word[0] % 32) as usize;
    let to = tables.keyword_start(letter + 1);
    let mut row = tables.keyword_start(letter);
    'rows: loop {
        if to <= row {
            break 'rows kinds::IDENT;
        }
        let here = row;
        row += 1;
        if tables.keyword_length(here) != n {
            continue 'rows;
        }
        let mut j: usize = 0;
        loop {
            if j == n {
                break 'rows tables.keyword_kind(here);
            }
            if tables.keyword_byte(here, j) != word[j] {
                continue 'rows;
            }
            j += 1;
        }
    }
}
