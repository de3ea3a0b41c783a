//! Draws: numbers, each of which follows from the one before.
ghost use Rattle.std.specs.Prelude.{◌≡◌, ◌<◌};
ghost use Rattle.sample_scripts.specs.Scripts as told;

/// Goes on to the next draw, and returns it.
pub(crate) fn next_draw(x: &mut u64) -> u64
    requires { x.old < 2147483648 }
    ensures next { x.new ≡ told.next_draw x.old }
    ensures below { x.new < 2147483648 }
    ensures told { result ≡ x.new }
{
    *x = (*x * 1_103_515_245 + 12_345) % 2_147_483_648;
    *x
}
