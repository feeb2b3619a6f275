//! What is not shown of a location that is left: where the observer may be false, and the cases that no proof rules out.

use crate::conjuncts::{Judge, Search};
use crate::cover::cover_within;
use crate::formula::{Scene, put_cover, put_formula};
use crate::invariant::{is_refuted, is_step};
use crate::known::Known;
use crate::outcome::put_part;
use crate::possible::{Atoms, Case};
use crate::regions::{Region, hull_of};
use crate::table::put_wrapped;
use crate::trace::Told;
use rv_base::Memory;
use rv_diagram::Frozen;
use rv_flat::Flat;
use rv_proofs::{Entry, Location};

/// How many regions the valuations of the steps of a location are told apart by.
const MOST_REGIONS: usize = 400;

/// How many cases the parts of the observer are looked at in, and how many expressions in all of them.
const MOST_CASES: u64 = 64;

const MOST_LOOKED: u64 = 1_000_000;

/// How many cases without a proof are told of a location.
const MOST_UNREFUTED: usize = 40;

/// What is told of cases without a proof.
const UNREFUTED: &str =
    "the observer is false in each of these cases, and no proof shows that no integers meet it:";

/// What is told of left locations over: the quantities, what stands for each part of an expression, and where the observer is false, if that
/// has a diagram.
#[derive(Clone, Copy)]
pub struct Unshown<'b> {
    /// The quantities.
    pub scene: &'b Scene<'b>,
    /// What stands for each part of an expression.
    pub atoms: &'b Atoms,
    /// Where the observer is false.
    pub failing: &'b Option<Frozen>,
}

impl Unshown<'_> {
    /// Adds what is not shown of a location of which this is known.
    pub fn put(
        &self,
        told: &Told,
        text: &mut String,
        location: &Location,
        known: &Known,
    ) -> Result<(), Memory> {
        let is_observed = self.put_unobserved(told, text, location, known)?;
        let is_proved = self.put_unrefuted(text, location, known)?;
        if is_observed && is_proved {
            let nothing =
                "nothing is seen to be wanting: the observer is true in each of its steps, and no case lacks a proof";
            put_wrapped(text, 2, nothing)?;
        }
        Ok(())
    }

    /// Adds where the observer may be false in the steps of a location, and answers whether it is true in all.
    fn put_unobserved(
        &self,
        told: &Told,
        text: &mut String,
        location: &Location,
        known: &Known,
    ) -> Result<bool, Memory> {
        if !location.entries.as_slice().iter().any(is_step) {
            return Ok(true);
        }
        let Some(failing) = self.failing else {
            put_wrapped(
                text,
                2,
                "the observer may be false; the diagram that tells where is too large",
            )?;
            return Ok(false);
        };
        let stepping = self.stepping(location, known)?;
        let variables = self.scene.vocabulary.variables.as_slice();
        let whole = self.scene.vocabulary.whole(self.scene.alloc)?;
        let within = stepping.within.as_slice();
        let cover = cover_within(self.scene.alloc, variables, &whole, within, failing)?;
        if let Some(regions) = &cover {
            if regions.is_empty() {
                return Ok(true);
            }
        }
        put_wrapped(text, 2, "the observer may be false:")?;
        self.put_parts(told, text, &cover, within)?;
        let count = failing.nodes.len();
        put_cover(self.scene, text, 4, "when: ", &cover, count, &stepping)?;
        Ok(false)
    }

    /// What is known where a location has a step.
    fn stepping(&self, location: &Location, known: &Known) -> Result<Known, Memory> {
        let within = self.step_regions(location, known.within.as_slice())?;
        let rows = location.state.as_slice();
        Known::new(self.scene.alloc, self.scene.vocabulary, within, rows)
    }

    /// The regions, of those that are known, where a location has a step: these themselves where no case is said never to come, or where there
    /// would be too many.
    fn step_regions(&self, location: &Location, known: &[Region]) -> Result<Vec<Region>, Memory> {
        let alloc = self.scene.alloc;
        let whole = self.scene.vocabulary.whole(alloc)?;
        if location.entries.as_slice().iter().all(is_step) {
            return parts_of(self.scene, std::slice::from_ref(&whole), known);
        }
        let variables = self.scene.vocabulary.variables.as_slice();
        let mut found = Vec::new(alloc);
        for entry in location.entries.as_slice() {
            if is_step(entry) {
                let cover = cover_within(alloc, variables, &whole, known, &entry.condition)?;
                let regions = match cover {
                    Some(regions) => regions,
                    None => return parts_of(self.scene, std::slice::from_ref(&whole), known),
                };
                found.append(&mut parts_of(self.scene, regions.as_slice(), known)?)?;
                if found.len() > MOST_REGIONS {
                    return parts_of(self.scene, std::slice::from_ref(&whole), known);
                }
            }
        }
        Ok(found)
    }

    /// Adds the parts of the observer that may be false in regions of the known ones; all where there are none.
    fn put_parts(
        &self,
        told: &Told,
        text: &mut String,
        cover: &Option<Vec<Region>>,
        known: &[Region],
    ) -> Result<(), Memory> {
        let mut cases = Vec::new(self.scene.alloc);
        for region in self.looked(cover, known)? {
            cases.push(Case::new(self.scene.flat, self.atoms, region)?)?;
        }
        put_false(told, text, self.scene.flat, cases.as_slice())
    }

    /// The regions in which parts of the observer are looked at: those of a cover within the known ones, or their hull where there are many.
    fn looked(&self, cover: &Option<Vec<Region>>, known: &[Region]) -> Result<Vec<Region>, Memory> {
        let alloc = self.scene.alloc;
        let whole = self.scene.vocabulary.whole(alloc)?;
        let found = match cover {
            Some(regions) => parts_of(self.scene, regions.as_slice(), known)?,
            None => parts_of(self.scene, std::slice::from_ref(&whole), known)?,
        };
        let count = found.len() as u64;
        if count <= MOST_CASES && count.saturating_mul(self.scene.flat.expanded) <= MOST_LOOKED {
            return Ok(found);
        }
        let mut hull = Vec::new(alloc);
        hull.push(hull_of(alloc, &whole, found.as_slice())?)?;
        Ok(hull)
    }

    /// Adds the cases of a location that no proof rules out, and answers whether there are none.
    fn put_unrefuted(
        &self,
        text: &mut String,
        location: &Location,
        known: &Known,
    ) -> Result<bool, Memory> {
        let mut count: usize = 0;
        for entry in location.entries.as_slice() {
            if is_unrefuted(entry) {
                if count == 0 {
                    put_wrapped(text, 2, UNREFUTED)?;
                }
                if count < MOST_UNREFUTED {
                    put_formula(self.scene, text, 4, "- ", &entry.condition, known)?;
                }
                count = count.saturating_add(1);
            }
        }
        let more = count.saturating_sub(MOST_UNREFUTED);
        if more > 0 {
            write!(text, "    and {more} more\n")?;
        }
        Ok(count == 0)
    }
}

/// Adds the parts of the observer that may be false in some cases.
fn put_false<'x>(
    told: &'x Told<'x, 'x>,
    text: &mut String,
    flat: &'x Flat,
    cases: &'x [Case<'x>],
) -> Result<(), Memory> {
    let search = Search {
        alloc: told.alloc,
        names: told.names,
        main: told.main,
        flat,
        judge: Judge::In(cases),
    };
    for part in search.false_in_observer()? {
        put_part(told, text, flat, 4, &part)?;
    }
    Ok(())
}

/// Whether an entry says that its case never comes, without a proof.
fn is_unrefuted(entry: &Entry) -> bool {
    !is_step(entry) && !is_refuted(entry)
}

/// What regions and the known ones have in common, one by one.
fn parts_of(scene: &Scene, regions: &[Region], known: &[Region]) -> Result<Vec<Region>, Memory> {
    let mut found = Vec::new(scene.alloc);
    for region in regions {
        for other in known {
            let part = region.and(scene.alloc, other)?;
            if !part.is_empty() {
                found.push(part)?;
            }
        }
    }
    Ok(found)
}
