//! Labelled rows by the keys of their left sides, so that a row is asked for without a look at each of them.

ghost use Rattle.std.specs.Prelude.{◌≡◌, ℕ, ℤ, ◌<◌, ◌+◌, Some, List, [], ◌∷◌, ◌++◌, length, slice_get, slice_set, IfOk, OnOk};
ghost use Rattle.std.specs.List.{Contains};
ghost use Rattle.rv_pairs.specs.declared.labels.Labelled.{Labelled as LabelledModel};
ghost use Rattle.rv_pairs.specs.Shown.{IsSumOf};
ghost use Rattle.rv_pairs.specs.Keys.{IsKey, AreKeys, AreIndexed, AreEmpty, places_at};

use crate::keys::{KEYS, key_of, key_of_rest};
use crate::labels::Labelled;
use rv_base::{Many, Memory};
use std::alloc::Global;
use std::marker::Model;

/// Labelled rows with an index of their left sides. To a contract they are their list.
#[derive(Debug, Drop)]
pub struct LabelledRows {
    list: Many<Labelled>,
    keys: Many<usize>,
    places: Vec<Many<usize>>,
}

impl Model for LabelledRows {
    ghost use Rattle.std.specs.Prelude.{List, length};
    ghost use Rattle.rv_pairs.specs.declared.labels.Labelled.{Labelled};
    ghost use Rattle.rv_pairs.specs.Keys.{AreKeys, AreIndexed};

    ghost Value = { List Labelled };

    ghost view = { λ r. r.list };

    ghost invariant = { λ r. AreKeys r.list (length r.list) r.keys × AreIndexed r.list (length r.list) r.places.items };
}

/// A list for each key, and nothing is in them.
fn no_places(alloc: Global) -> Result<Vec<Many<usize>>, Memory>
    ensures { IfOk result (λ places. AreEmpty places.items) }
{
    let mut places = Vec::new(alloc);
    for _key in 0..KEYS {
        places.push(Many::new(alloc))?;
    }
    Ok(places)
}

/// Notes the place of a row under a key.
fn note_place(places: &mut Vec<Many<usize>>, key: usize, place: usize) -> Result<(), Memory>
    requires key { key < length places.old.items }
    ensures { OnOk result (places.new.items ≡ slice_set places.old.items key (places_at places.old.items key ++ place ∷ [])) }
{
    let same = &mut places[key];
    same.push(place)?;
    Ok(())
}

/// Notes the key of the left side of a row, and its place under that.
fn note_row(
    labels: &Many<Labelled>,
    keys: &mut Many<usize>,
    places: &mut Vec<Many<usize>>,
    place: usize,
) -> Result<(), Memory>
    requires place { place < length labels.now }
    requires keys { AreKeys labels.now place keys.old }
    requires places { AreIndexed labels.now place places.old.items }
    ensures keys { OnOk result (AreKeys labels.now (place + 1) keys.new) }
    ensures places { OnOk result (AreIndexed labels.now (place + 1) places.new.items) }
{
    let label = labels.at(place);
    let key = key_of(&label.row.coefficients);
    keys.push(key)?;
    note_place(places, key, place)?;
    Ok(())
}

impl LabelledRows {
    /// The rows, with their index. The only error is want of memory.
    pub fn new(alloc: Global, list: Many<Labelled>) -> Result<LabelledRows, Memory>
        ensures { IfOk result (λ rows. rows ≡ list) }
    {
        let mut keys = Many::new(alloc);
        let mut places = no_places(alloc)?;
        for place in 0..list.len() {
            note_row(&list, &mut keys, &mut places, place)?;
        }
        Ok(LabelledRows { list, keys, places })
    }

    /// How many rows there are.
    pub fn len(&self) -> usize
        ensures { result ≡ length self.now }
    {
        self.list.len()
    }

    /// The row at a place.
    pub fn at(&self, place: usize) -> &Labelled
        requires { place < length self.now }
        ensures value { slice_get self.now place ≡ Some result.now }
    {
        self.list.at(place)
    }

    /// The key of the left side of the row at a place.
    pub fn key_at(&self, place: usize) -> usize
        requires { place < length self.now }
        ensures { (l : LabelledModel) → slice_get self.now place ≡ Some l → IsKey l.row.coefficients result }
    {
        *self.keys.at(place)
    }

    /// Places of rows, among them each one whose left side is what the left side of the row at a place lacks of the wanted one, which has this
    /// key.
    pub fn others(&self, key: usize, place: usize) -> &Many<usize>
        requires key { key < 4096 }
        requires place { place < length self.now }
        ensures { (numbers : List ℤ) (i : ℕ) (one other : LabelledModel) → IsKey numbers key → slice_get self.now i ≡ Some one
            → slice_get self.now place ≡ Some other → IsSumOf numbers one.row other.row → Contains result.now i }
    {
        let here = *self.keys.at(place);
        let rest = key_of_rest(key, here);
        &self.places[rest]
    }

    /// Places of rows whose left sides have this key.
    pub fn alike(&self, key: usize) -> &Many<usize>
        requires key { key < 4096 }
    {
        &self.places[key]
    }
}
