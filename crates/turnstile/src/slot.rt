//! The value in its slot.
ghost use Rattle.std.specs.Prelude.{◌≡◌, [], ◌∷◌, Some, None, IsSome};
ghost use Rattle.turnstile.specs.declared.berth.Berth.{Berth};

use crate::berth::Berth;
use forest_model::Deed;
use ghost_past::Past;

pub(crate) fn berth_of<T>(value: T, deed: &Deed) -> Berth<T>
    ensures value { result.value ≡ Some value }
    ensures deed { result.deed.items ≡ deed.now ∷ [] }
{
    Berth {
        value: Some(value),
        deed: Past::new().and(deed),
    }
}

pub(crate) fn empty_berth<T>() -> Berth<T>
    ensures { result.value ≡ None }
{
    Berth {
        value: None,
        deed: Past::new(),
    }
}

pub(crate) fn value_of<T>(berth: Berth<T>) -> T
    requires { IsSome berth.value }
    ensures { berth.value ≡ Some result }
{
    let Berth { value, deed: _ } = berth;
    let Some(value) = value else { unreachable!() };
    value
}

pub(crate) fn discard<T>(berth: Berth<T>)
    requires { berth.value ≡ None }
{
    let Berth { value, deed: _ } = berth;
    let None = value else { unreachable!() };
}

pub(crate) fn only_value<T>(mut berths: Vec<Berth<T>>) -> T
    requires { (berth : Berth T) × (berths.items ≡ berth ∷ []) × IsSome berth.value }
    ensures { (berth : Berth T) × (berths.items ≡ berth ∷ []) × (berth.value ≡ Some result) }
{
    let Some(berth) = berths.pop() else {
        unreachable!()
    };
    berths.destroy_empty();
    value_of(berth)
}
