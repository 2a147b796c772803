//! Where an element lies in the listed arrays.

ghost use Rattle.std.specs.Prelude.{◌≡◌, ◌<◌, All, Some, length};
ghost use Rattle.spf_pack.specs.FirstTouch.{member_place, place_in};

use spf_space::ArrayShape;

/// The place of an element, if it is one of the array.
fn place_in(array: &ArrayShape, element: u32) -> Option<u32>
    ensures { result ≡ place_in (Some array.now) element }
{
    if array.start <= element && element - array.start < array.length {
        Some(element - array.start)
    } else {
        None
    }
}

/// The place of an element in the one of these arrays that has it. Linear in the listed arrays.
pub(crate) fn member_place(arrays: &[ArrayShape], members: &[u32], element: u32) -> Option<u32>
    requires { All (λ member. member < length arrays.now) members.now }
    ensures { result ≡ member_place arrays.now members.now element }
{
    for member in members {
        if let Some(place) = place_in(&arrays[*member as usize], element) {
            return Some(place);
        }
    }
    None
}
