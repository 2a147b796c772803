//! When two units conflict.

ghost use Rattle.std.specs.Prelude.{◌≡◌, ◌↔◌, IsTrue, Any};
ghost use Rattle.spf_touch.specs.Conflict.{Conflict, Clash, is_shared};
ghost use Rattle.spf_touch.specs.Copy.{together};

use crate::class::Class;
use crate::touch::Touch;

/// Whether some element is in both touch lists and hasn't one class other than Write in both.
///
/// It takes no memory and costs the product of the two lengths, which for units are short.
pub fn conflict(a: &[Touch], b: &[Touch]) -> bool
    ensures { IsTrue result ↔ Conflict a.now b.now }
{
    a.iter().any(|touch| clashes(touch, b))
}

fn clashes(touch: &Touch, others: &[Touch]) -> bool
    ensures { IsTrue result ↔ Any (Clash touch.now) others.now }
{
    others.iter().any(|other| touch.element == other.element && !shared(touch.class, other.class))
}

fn shared(one: Class, other: Class) -> bool
    ensures { result ≡ is_shared one other }
{
    matches!(
        (one, other),
        (Class::Read, Class::Read) | (Class::Add, Class::Add)
    )
}

/// The class of an element that is touched in both ways.
pub(crate) fn join(one: Class, other: Class) -> Class
    ensures { result ≡ together one other }
{
    if shared(one, other) {
        one
    } else {
        Class::Write
    }
}
