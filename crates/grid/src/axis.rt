// The coordinates of a place, one by one.
ghost use Rattle.std.specs.Prelude.{◌≡◌, ◌<◌, ◌≤◌, ◌^◌};
ghost use Rattle.grid.specs.Strides.{stride_back, stride_forth};

// One coordinate of a place, its bound, and by how much the number of a place grows with it: at most a layer's places.
#[derive(Clone, Copy)]
pub(super) struct Axis {
    pub(super) at: u32,
    pub(super) bound: u32,
    pub(super) stride: u32,
    ghost inside: { at < bound },
    ghost short: { stride ≤ 262144 },
}

impl Axis {
    // The place where the coordinate is one less; absent outside the shape.
    pub(super) fn back(self, place: u32) -> Option<u32>
        requires { 0 < self.at → self.stride ≤ place }
        ensures { result ≡ stride_back self.at place self.stride }
    {
        (self.at > 0).then(|| place - self.stride)
    }

    // The place where the coordinate is one more; absent outside the shape.
    pub(super) fn forth(self, place: u32) -> Option<u32>
        requires { place < 2 ^ 31 }
        ensures { result ≡ stride_forth self.at self.bound place self.stride }
    {
        (self.at + 1 < self.bound).then(|| place + self.stride)
    }
}
