//! Types and values that terms share, so that a copy costs nothing of their size.
ghost use Rattle.std.specs.Prelude.{◌≡◌, IfOk};
ghost use Rattle.eb_value.specs.Canonical.{IsCanonical};

use eb_value::{EbType, Value};
use std::alloc::{AllocError, Global};
use std::marker::Model;
use std::rc::Rc;

/// A type that terms share. Contracts see the type.
#[derive(Drop)]
pub struct SharedType {
    shared: Rc<EbType>,
}

impl Model for SharedType {
    ghost use Rattle.std.specs.Rc.{rc_value};
    ghost use Rattle.std.specs.Coded.{codes};
    ghost use Rattle.eb_value.specs.declared.types.EbType.{EbType};
    ghost use Rattle.eb_value.specs.contracts.types.EbType as e;

    ghost Value = { EbType };

    ghost coded = { Prim.hlevel (codes, e.the_row.coded) };

    ghost view = { λ s. rc_value s.shared };
}

impl SharedType {
    /// The type, to be shared. The only error is want of memory.
    pub fn new(alloc: Global, ty: EbType) -> Result<SharedType, AllocError>
        ensures { IfOk result (λ s. s ≡ ty) }
    {
        match Rc::new(alloc, ty) {
            Ok(shared) => Ok(SharedType { shared }),
            Err(_) => Err(AllocError),
        }
    }

    /// The type itself.
    pub fn get(&self) -> &EbType
        ensures { result.now ≡ self.now }
    {
        &self.shared
    }

    /// The same type once more, at no cost but a count. The only error is want of memory.
    pub fn again(&self) -> Result<SharedType, AllocError>
        ensures { IfOk result (λ s. s ≡ self.now) }
    {
        let shared = self.shared.clone()?;
        Ok(SharedType { shared })
    }
}

/// A value that terms share: every set in it, at every depth, has its members in ascending order. Contracts see the value.
#[derive(Drop)]
pub struct SharedValue {
    shared: Rc<Value>,
}

impl Model for SharedValue {
    ghost use Rattle.std.specs.Rc.{rc_value};
    ghost use Rattle.std.specs.Coded.{codes};
    ghost use Rattle.eb_value.specs.declared.value.Value.{Value as TheValue};
    ghost use Rattle.eb_value.specs.contracts.value.Value as v;
    ghost use Rattle.eb_value.specs.Canonical.{IsCanonical};

    ghost Value = { TheValue };

    ghost coded = { Prim.hlevel (codes, v.the_row.coded) };

    ghost view = { λ s. rc_value s.shared };

    ghost invariant = { λ s. IsCanonical (rc_value s.shared) };
}

impl SharedValue {
    /// The value, to be shared. The only error is want of memory.
    pub fn new(alloc: Global, value: Value) -> Result<SharedValue, AllocError>
        requires { IsCanonical value }
        ensures { IfOk result (λ s. s ≡ value) }
    {
        match Rc::new(alloc, value) {
            Ok(shared) => Ok(SharedValue { shared }),
            Err(_) => Err(AllocError),
        }
    }

    /// The value itself.
    pub fn get(&self) -> &Value
        ensures value { result.now ≡ self.now }
        ensures canonical { IsCanonical result.now }
    {
        &self.shared
    }

    /// The same value once more, at no cost but a count. The only error is want of memory.
    pub fn again(&self) -> Result<SharedValue, AllocError>
        ensures { IfOk result (λ s. s ≡ self.now) }
    {
        let shared = self.shared.clone()?;
        Ok(SharedValue { shared })
    }
}
