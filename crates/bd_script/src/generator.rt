//! A generated load.

ghost use Rattle.std.specs.Prelude.{◌≡◌, ◌<◌, ◌*◌, IfOk};
ghost use Rattle.bd_script.specs.Generated.{load, line_count, state_after, drawn_line, generated_line};

use crate::draws::Draws;
use crate::generated::{DIRECTORIES, DRAWS, DrawnLine};
use std::alloc::{AllocError, Global};
use std::marker::Model;

/// The script that a seed makes: eight lines that make directories, and then as many as are wanted
/// that are drawn. It may be asked for its lines in any order.
#[derive(Debug, Drop)]
pub struct Generator {
    seed: u32,
    count: u32,
    // The draws after those of so many lines. A line after these costs the draws up to it, five
    // where lines are asked for one after the other; a line before them costs all from the seed on.
    draws: Draws,
    drawn: u64,
}

impl Model for Generator {
    ghost use Rattle.bd_script.specs.Generated.{Load, load, HasDrawn};

    ghost Value = { Load };

    ghost view = { λ g. load g.seed g.count };

    ghost invariant = { λ g. HasDrawn g.seed g.count g.drawn g.draws.state };
}

impl Generator {
    /// The script of a seed, with so many drawn lines.
    pub fn new(seed: u32, count: u32) -> Generator
        ensures { result ≡ load seed count }
    {
        Generator {
            seed,
            count,
            draws: Draws::new(seed),
            drawn: 0,
        }
    }

    /// How many lines the script has.
    pub fn lines(&self) -> u64
        ensures { result ≡ line_count self.now }
    {
        u64::from(DIRECTORIES) + u64::from(self.count)
    }

    /// The line at an index, counted from 0, without its newline. It fails where there is no
    /// memory; the script stays the same.
    #[tactic(auto, unfolding(crate::specs::Generated::generated_line))]
    pub fn line(&mut self, alloc: Global, index: u64) -> Result<Vec<u8>, AllocError>
        requires { index < line_count self.old }
        ensures line { IfOk result (λ line. line.items ≡ generated_line self.old.seed index) }
        ensures script { self.new ≡ self.old }
    {
        if index < u64::from(DIRECTORIES) {
            return Ok(format!(in alloc; "mkdir /d{index}")?.into_bytes());
        }
        let line = self.drawn_line(index - u64::from(DIRECTORIES));
        Ok(line.text(alloc)?.into_bytes())
    }

    /// The line that is drawn after `n` others.
    fn drawn_line(&mut self, n: u64) -> DrawnLine
        requires { n < self.old.count }
        ensures line { result ≡ drawn_line self.old.seed n }
        ensures script { self.new ≡ self.old }
    {
        let mut draws = self.draws_at(n);
        let line = DrawnLine::draw(&mut draws);
        self.draws = draws;
        self.drawn = n + 1;
        line
    }

    /// The draws after those of `n` lines.
    fn draws_at(&self, n: u64) -> Draws
        requires { n < self.now.count }
        ensures { result.state ≡ state_after self.now.seed (DRAWS * n) }
    {
        if n < self.drawn {
            Draws::new(self.seed).after(DRAWS * n)
        } else {
            self.draws.after(DRAWS * (n - self.drawn))
        }
    }
}
