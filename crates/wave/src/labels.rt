// Labels, one a place.
ghost use Rattle.std.specs.Prelude.{◌≡◌};
ghost use Rattle.route.specs.Paths.{label_of};

// The label of a place; none behind the last label.
pub fn label_at<C: Copy>(labels: &[Option<C>], place: u32) -> Option<C>
    ensures { result ≡ label_of labels.now place }
{
    labels.get(place as usize).copied().flatten()
}
