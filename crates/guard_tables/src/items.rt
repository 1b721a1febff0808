//! The items of an ENUMERATED, as a node keeps them.
use guard_model::{Kind, Named, NamedList, OutOfMemory};
use std::marker::Model;
use std::sync::Arc;

/// The numbers of the items of an ENUMERATED in written order, which are found without looking at each of them; none of
/// another kind. They are shared with the type.
#[derive(Drop)]
pub struct Items {
    names: Option<Arc<NamedList>>,
}

impl Model for Items {
    ghost use Rattle.std.specs.Prelude.{ℤ, List};
    ghost use Rattle.guard_tables.specs.inside.Items.{numbers_in};

    ghost Value = { List ℤ };

    ghost view = { λ items. numbers_in items.names };
}

impl Items {
    ghost use Rattle.std.specs.Prelude.{◌≡◌, [], map, IfOk};
    ghost use Rattle.guard_model.specs.NamedLists.{is_item, named_view};
    ghost use Rattle.guard_model.specs.TypeView.{kind_view};
    ghost use Rattle.guard_tables.specs.NodeViews.{unnamed};
    ghost use Rattle.guard_tables.specs.inside.Assembled.{item_numbers};

    /// No item.
    pub(crate) fn none() -> Items
        ensures { result ≡ [] }
    {
        Items { names: None }
    }

    /// Those of a kind.
    pub(crate) fn of(kind: &Kind) -> Result<Items, OutOfMemory>
        ensures { IfOk result (λ items. items ≡ item_numbers (kind_view kind.now)) }
    {
        match kind {
            Kind::Enumerated(items) => Ok(Items {
                names: Some(items.clone()?),
            }),
            _ => Ok(Items::none()),
        }
    }

    /// The items with their names.
    pub(crate) fn as_slice(&self) -> &[Named]
        ensures { map (λ n. n.number) (map named_view result.now) ≡ self.now }
    {
        match &self.names {
            Some(names) => names.as_slice(),
            None => &[],
        }
    }

    /// Whether an item has this number, by a search in the order of numbers.
    pub fn has(&self, number: i128) -> bool
        ensures { result ≡ is_item number (map unnamed self.now) }
    {
        match &self.names {
            Some(names) => names.has_number(number),
            None => false,
        }
    }
}
