// What the records that a caller lends have in common.
ghost use Rattle.std.specs.Prelude.{◌≡◌, Bool};
ghost use Rattle.sizes.specs.declared.Sizes.{Sizes};

use sizes::Sizes;

// A kind of record that a caller lends: its fresh one, and whether its fields are within their ranges, for a run of these sizes.
pub trait Record: Copy {
    ghost fresh_record: { Self };

    ghost is_in_range: { Sizes → Self → Bool };

    fn fresh() -> Self
        ensures { result ≡ fresh_record };

    fn in_range(self, z: Sizes) -> bool
        ensures { result ≡ is_in_range z self };
}
