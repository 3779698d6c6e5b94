//! The items of slices.

ghost use Rattle.std.specs.Prelude.{◌≡◌, ◌<◌, length, slice_get, Some};

/// The item at a place.
pub fn item_at<T>(items: &[T], place: usize) -> &T
    requires { place < length items.now }
    ensures { slice_get items.now place ≡ Some result.now }
{
    &items[place]
}
