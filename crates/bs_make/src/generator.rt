//! A generator of numbers. A contract sees it as the number where it stands.

ghost use Rattle.std.specs.Prelude.{◌≡◌, ◌<◌};
ghost use Rattle.bs_make.specs.Draws.{next, drawn};

use std::marker::Model;

#[derive(Drop)]
pub struct Generator {
    x: u64,
}

impl Model for Generator {
    ghost use Rattle.std.specs.Prelude.{ℕ};

    ghost Value = { ℕ };

    ghost view = { λ a. a.x };
}

impl Generator {
    pub fn new(seed: u64) -> Generator
        ensures { result ≡ seed }
    {
        Generator { x: seed }
    }

    /// Draws a number below `n`.
    pub fn draw(&mut self, n: u64) -> u64
        requires { 0 < n }
        ensures drawn { result ≡ drawn n self.old }
        ensures next { self.new ≡ next self.old }
        ensures below { result < n }
    {
        self.x = self
            .x
            .wrapping_mul(6364136223846793005)
            .wrapping_add(1442695040888963407);
        (self.x >> 33) % n
    }
}
