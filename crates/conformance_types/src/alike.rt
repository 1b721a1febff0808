//! `Value::same` and `Value::copy`, `Ty::same_base` and `Ty::copy`: the row above that is like a row, or `new` where
//! none is. The copy of each is like it, and prints as it does itself.
use crate::notation::{Unread, read, type_of, typed_value_of};
use conformance_rows::{Layer, not_read, text_of, unknown};
use guard_model::{Ty, Value};
use std::alloc::{AllocError, Global};

/// What a row writes.
pub trait Written: Drop {
    fn written(alloc: Global, text: &str) -> Result<Box<Self>, Unread>;

    /// Whether both are the same value, or have the same base.
    fn is_like(&self, other: &Self) -> bool;

    /// Whether the copy is like it, and prints alike.
    fn is_copied(&self, alloc: Global) -> Result<bool, AllocError>;
}

impl Written for Ty {
    fn written(alloc: Global, text: &str) -> Result<Box<Ty>, Unread> {
        type_of(alloc, text)
    }

    fn is_like(&self, other: &Ty) -> bool {
        may_go_to_another_thread(self);
        self.same_base(other)
    }

    fn is_copied(&self, alloc: Global) -> Result<bool, AllocError> {
        let Ok(copy) = self.copy(alloc) else {
            return Err(AllocError);
        };
        let copied = format!(in alloc; "{copy:?}")?;
        let original = format!(in alloc; "{self:?}")?;
        Ok(copy.same_base(self) && copied.as_str() == original.as_str())
    }
}

impl Written for Value {
    fn written(alloc: Global, text: &str) -> Result<Box<Value>, Unread> {
        typed_value_of(alloc, text)
    }

    fn is_like(&self, other: &Value) -> bool {
        may_go_to_another_thread(self);
        self.same(other)
    }

    fn is_copied(&self, alloc: Global) -> Result<bool, AllocError> {
        let Ok(copy) = self.copy() else {
            return Err(AllocError);
        };
        let copied = format!(in alloc; "{copy:?}")?;
        let original = format!(in alloc; "{self:?}")?;
        Ok(copy.same(self) && copied.as_str() == original.as_str())
    }
}

/// That this compiles shows of its type that it may go to another thread and be shared with it. It does nothing.
fn may_go_to_another_thread<T: Send + Sync>(_: &T) {}

/// A row above, and what it writes.
#[derive(Drop)]
struct Row<T: Written> {
    text: String,
    written: Box<T>,
}

/// The rows above, no two of which are alike.
#[derive(Drop)]
pub struct Alike<T: Written> {
    above: Vec<Row<T>>,
}

impl<T: Written> Alike<T> {
    /// The texts of the rows above that are like this one. They are marked if it isn't like them in turn.
    fn alike(&self, alloc: Global, written: &T) -> Result<String, AllocError> {
        let mut text = String::new(alloc);
        for row in &self.above {
            let is_like = row.written.is_like(written);
            if is_like != written.is_like(&row.written) {
                text.push_str("one way: ")?;
            }
            if is_like {
                text.push_str(&row.text)?;
            }
        }
        Ok(text)
    }
}

impl<T: Written> Layer for Alike<T> {
    fn new(alloc: Global) -> Alike<T> {
        Alike {
            above: Vec::new(alloc),
        }
    }

    fn answer(&mut self, alloc: Global, input: &[u8]) -> Result<String, AllocError> {
        let Some(written) = read(T::written(alloc, text_of(input)))? else {
            return not_read(alloc);
        };
        if !written.is_copied(alloc)? {
            return String::from_str(alloc, "its copy is unlike it");
        }
        let alike = self.alike(alloc, &written)?;
        if !alike.is_empty() {
            return Ok(alike);
        }
        let text = String::from_str(alloc, text_of(input))?;
        self.above.push(Row { text, written })?;
        String::from_str(alloc, "new")
    }

    fn set(&mut self, alloc: Global, _name: &str, _text: &[u8]) -> Result<String, AllocError> {
        unknown(alloc)
    }
}
