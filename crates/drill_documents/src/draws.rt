ghost use Rattle.std.specs.Prelude.{◌≡◌, ◌<◌};
ghost use Rattle.drill_documents.specs.Draws.{draw, draw_after};

// Where the draws begin.
pub fn first_draw(seed: u64) -> u64
    ensures { result ≡ draw seed 0 }
{
    seed % 65_537
}

// The draw that follows this one.
pub fn next_draw(before: u64) -> u64
    requires { before < 65537 }
    ensures { result ≡ draw_after before }
{
    (75 * before + 74) % 65_537
}
