//! Touches of one element, joined.

ghost use Rattle.std.specs.Prelude.{◌≡◌, ◌<◌, ◌≤◌, ◌↔◌, ℕ, All, AllPairs, IfOk, IsTrue, OnOk};
ghost use Rattle.std.specs.List.Sorted.{IsNonDecreasingBy};
ghost use Rattle.spf_touch.specs.Copy.{together};
ghost use Rattle.spf_touch.specs.Frame.{class_at};
ghost use Rattle.spf_touch.specs.Noted.{noted};
ghost use Rattle.spf_tiles.specs.Joining.{EndsWith, class_in};

use spf_base::NoMemory;
use spf_touch::{Class, Touch};
use std::alloc::Global;

/// The class of an element that is touched in both ways.
fn join(one: Class, other: Class) -> Class
    ensures { result ≡ together one other }
{
    match (one, other) {
        (Class::Read, Class::Read) | (Class::Add, Class::Add) => one,
        _ => Class::Write,
    }
}

fn ends_with(touches: &[Touch], element: u32) -> bool
    ensures { IsTrue result ↔ EndsWith touches.now element }
{
    !touches.is_empty() && touches[touches.len() - 1].element == element
}

/// Adds a touch to a foot that ends at or before its element.
fn add(foot: &mut Vec<Touch>, touch: Touch) -> Result<(), NoMemory>
    requires rising { AllPairs (λ a b. a.element < b.element) foot.old.items }
    requires behind { All (λ (other : Touch). other.element ≤ touch.element) foot.old.items }
    ensures rising { OnOk result (AllPairs (λ a b. a.element < b.element) foot.new.items) }
    ensures behind { OnOk result (All (λ (other : Touch). other.element ≤ touch.element) foot.new.items) }
    ensures noted { OnOk result (foot.new.items ≡ noted foot.old.items touch.element touch.class) }
{
    if ends_with(foot.as_slice(), touch.element) {
        let last = foot.len() - 1;
        let class = join(foot[last].class, touch.class);
        foot[last] = Touch {
            element: touch.element,
            class,
        };
    } else {
        foot.push(touch)?;
    }
    Ok(())
}

/// These touches, with those of one element joined.
pub(crate) fn joined(alloc: Global, touches: &[Touch]) -> Result<Vec<Touch>, NoMemory>
    requires { IsNonDecreasingBy (λ (touch : Touch). touch.element) touches.now }
    ensures rising { IfOk result (λ foot. AllPairs (λ a b. a.element < b.element) foot.items) }
    ensures classes { IfOk result (λ foot. (e : ℕ) → class_at foot.items e ≡ class_in touches.now e) }
{
    let mut foot = Vec::new(alloc);
    for touch in touches {
        add(&mut foot, *touch)?;
    }
    Ok(foot)
}
