// From the width that sums are worked out in to the width that they are kept in.
ghost use Rattle.std.specs.Prelude.{◌≡◌};
ghost use Rattle.billing.specs.Capped.{capped};

// As it is where it fits, else the nearest number that does.
pub(crate) fn narrowed(wide: i128) -> i64
    ensures { result ≡ capped wide }
{
    wide.clamp(i128::from(i64::MIN), i128::from(i64::MAX)) as i64
}
