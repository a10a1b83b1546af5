//! What is answered for a key.
ghost use Rattle.std.specs.Prelude.{◌≡◌, Option, None, Some, IfOk, is_some};

use aug_monoid::{NoMemory, Share};
use std::alloc::Global;
use std::marker::PhantomData;

/// An answer for each key, made of the value that stands there, or of there being none.
pub(crate) trait Answer<V>: Drop {
    type Out: Drop;

    ghost answer: { Option V → Self.Out };

    /// The answer for a key at which a value stands.
    fn found(alloc: Global, val: &V) -> Result<Self::Out, NoMemory>
        ensures { IfOk result (λ out. out ≡ answer (Some val.now)) };

    /// The answer for a key at which none does.
    fn missing() -> Self::Out
        ensures { result ≡ answer None };
}

/// The value, if there is one.
#[derive(Drop)]
pub(crate) struct Value<V>(PhantomData<V>);

impl<V: Share> Answer<V> for Value<V> {
    type Out = Option<V>;

    ghost answer = { λ o. o };

    fn found(alloc: Global, val: &V) -> Result<Option<V>, NoMemory> {
        Ok(Some(val.share(alloc)?))
    }

    fn missing() -> Option<V> {
        None
    }
}

/// Whether there is a value.
#[derive(Drop)]
pub(crate) struct Whether;

impl<V> Answer<V> for Whether {
    type Out = bool;

    ghost answer = { λ o. is_some o };

    fn found(_alloc: Global, _val: &V) -> Result<bool, NoMemory> {
        Ok(true)
    }

    fn missing() -> bool {
        false
    }
}
