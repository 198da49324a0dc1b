// What earlier sessions left in the rows.
ghost use Rattle.std.specs.Prelude.{◌≤◌, ◌^◌};

/// The marks that earlier sessions left in the rows: the greatest ticket that a key names, and the greatest moment that a row
/// has, in ticks.
#[derive(Clone, Copy)]
pub struct HighWater {
    pub ticket: u32,
    pub moment: u64,
    ghost early: { moment ≤ 2 ^ 62 },
}
