//! Cutting a line into its words.
ghost use Rattle.std.specs.Prelude.{◌≡◌, ◌∷◌, ◌==◌, position};
ghost use Rattle.std.specs.Option.{option_copied};
ghost use Rattle.std.specs.Iterator.{YieldsFirstRef, item_count};
ghost use Rattle.cl_lines.specs.Words.{words, words_after};

use std::marker::Model;

/// The words of a line, cut at each blank, that are left. Contracts see the list of them.
#[derive(Drop)]
pub(crate) struct Words<'a> {
    rest: Option<&'a [u8]>,
}

impl<'a> Model for Words<'a> {
    ghost use Rattle.std.specs.Prelude.{ℕ, List};
    ghost use Rattle.std.specs.Option.{option_copied};
    ghost use Rattle.cl_lines.specs.Words.{words_after};

    ghost Value = { List (List ℕ) };

    ghost view = { λ words. words_after (option_copied words.rest) };
}

// The index of the first blank.
fn first_blank(line: &[u8]) -> Option<usize>
    ensures { result ≡ position (λ byte. byte == 32) line.now }
{
    line.iter().position(|byte| *byte == b' ')
}

// The first word, and the rest after its blank, if it has one.
fn cut_first_word(line: &[u8]) -> (&[u8], Option<&[u8]>)
    ensures { words line.now ≡ result.0.now ∷ words_after (option_copied result.1) }
{
    match first_blank(line) {
        Some(blank) => (&line[..blank], Some(&line[blank + 1..])),
        None => (line, None),
    }
}

impl<'a> Words<'a> {
    /// The words of a line.
    pub(crate) fn of(line: &'a [u8]) -> Words<'a>
        ensures { result ≡ words line.now }
    {
        Words { rest: Some(line) }
    }
}

impl<'a> Iterator for Words<'a> {
    type Item = &'a [u8];

    ghost next_gives = { YieldsFirstRef (λ words. words) };

    ghost remaining = { item_count (λ words. words) };

    fn next(&mut self) -> Option<&'a [u8]> {
        let line = self.rest?;
        let (word, rest) = cut_first_word(line);
        self.rest = rest;
        Some(word)
    }
}
