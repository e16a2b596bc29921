//! Collects what a closure makes of the items of a slice, where the closure may run out of memory.

ghost use Rattle.std.specs.Prelude.{◌≡◌, Ok, IfOk, Bool, Option, map, filter};
ghost use Rattle.std.specs.List.{filter_map};
ghost use Rattle.std.specs.Fn.{FnReturnsAt};

use std::alloc::{AllocError, Global};

/// Returns what the closure makes of each item.
pub fn try_map<T, U: Drop, F: Fn(&T) -> Result<U, AllocError>>(
    alloc: Global,
    items: &[T],
    make: F,
) -> Result<Vec<U>, AllocError>
    requires { F.IsAlwaysCallable make }
    ensures { IfOk result (λ made. (f : T → U)
        → ((x : T) (y : U) → FnReturnsAt F.Fn make x (Ok y) → y ≡ f x)
        → made.items ≡ map f items.now) }
{
    let mut made = Vec::with_capacity(alloc, items.len())?;
    for item in items {
        made.push(make(item)?)?;
    }
    Ok(made)
}

/// Returns what the closure `make` makes of each item that the closure `keep` selects.
pub fn try_map_where<T, U: Drop, P: Fn(&T) -> bool, F: Fn(&T) -> Result<U, AllocError>>(
    alloc: Global,
    items: &[T],
    keep: P,
    make: F,
) -> Result<Vec<U>, AllocError>
    requires keep { P.IsAlwaysCallable keep }
    requires make { F.IsAlwaysCallable make }
    ensures { IfOk result (λ made. (p : T → Bool) (f : T → U)
        → ((x : T) (b : Bool) → FnReturnsAt P.Fn keep x b → b ≡ p x)
        → ((x : T) (y : U) → FnReturnsAt F.Fn make x (Ok y) → y ≡ f x)
        → made.items ≡ map f (filter p items.now)) }
{
    let mut made = Vec::new(alloc);
    for item in items {
        if keep(item) {
            made.push(make(item)?)?;
        }
    }
    Ok(made)
}

/// Returns what the closure makes of the items, without those of which it makes nothing.
pub fn try_filter_map<T, U: Drop, F: Fn(&T) -> Result<Option<U>, AllocError>>(
    alloc: Global,
    items: &[T],
    make: F,
) -> Result<Vec<U>, AllocError>
    requires { F.IsAlwaysCallable make }
    ensures { IfOk result (λ made. (f : T → Option U)
        → ((x : T) (o : Option U) → FnReturnsAt F.Fn make x (Ok o) → o ≡ f x)
        → made.items ≡ filter_map f items.now) }
{
    let mut made = Vec::new(alloc);
    for item in items {
        if let Some(value) = make(item)? {
            made.push(value)?;
        }
    }
    Ok(made)
}
