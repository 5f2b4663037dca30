//! What a collection holds, by its kind.
ghost use Rattle.std.specs.Prelude.{◌≡◌};
ghost use Rattle.arc_core.specs.Item.{count_of};
ghost use Rattle.coll_items.specs.Holding.{contents_of, AreApart};

use list_coll::ListColl;
use map_coll::MapColl;
use set_coll::SetColl;

/// What a collection holds.
#[derive(Drop)]
pub enum Elements {
    List(ListColl),
    Set(SetColl),
    Map(MapColl),
}

impl Elements {
    /// How many elements there are. The values of a set are distinct, and so are the fields of a map.
    pub fn count(&self) -> u32
        ensures count { result ≡ count_of (contents_of self.now) }
        ensures apart { AreApart (contents_of self.now) }
    {
        match self {
            Elements::List(list) => list.count(),
            Elements::Set(set) => set.count(),
            Elements::Map(map) => map.count(),
        }
    }
}
