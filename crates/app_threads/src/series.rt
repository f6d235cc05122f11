//! What a thread leaves in order.
use std::marker::Model;

/// What came one after another. To a contract it is a list.
#[derive(Drop)]
pub struct Series<T> {
    pub(crate) items: Vec<T>,
}

impl<T> Model for Series<T> {
    ghost use Rattle.std.specs.Prelude.{List};

    ghost Value = { List T };

    ghost view = { λ s. s.items.items };
}

impl<T> Series<T> {
    ghost use Rattle.std.specs.Prelude.{◌≡◌};

    pub fn new(items: Vec<T>) -> Series<T>
        ensures { result ≡ items.items }
    {
        Series { items }
    }

    pub fn as_slice(&self) -> &[T]
        ensures { result.now ≡ self.now }
    {
        &self.items
    }

    pub fn into_vec(self) -> Vec<T>
        ensures { result.items ≡ self }
    {
        let Series { items } = self;
        items
    }
}
