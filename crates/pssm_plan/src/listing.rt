//! Lists the items that the parts of a step call.
ghost use Rattle.std.specs.Prelude.{◌≡◌, ◌↔◌, ◌<◌, Some, IsTrue, OnOk, Contains, length};
ghost use Rattle.pssm_model.specs.declared.ids.TransId.{TransId as Transition};
ghost use Rattle.pssm_model.specs.declared.steps.Item.{Item as Called};
ghost use Rattle.pssm_model.specs.Items.{restored_mode as opened_mode};
ghost use Rattle.pssm_model.specs.WellFormed.{KeepsModelRules};
ghost use Rattle.pssm_config.specs.Tables.{Fits, configuration_of};
ghost use Rattle.pssm_legs.specs.Calls.{IsItemIn};
ghost use Rattle.pssm_legs.specs.LegsOf.{IsLegIn};
ghost use Rattle.pssm_legs.specs.declared.legs.Leg.{Leg as TakenLeg};
ghost use Rattle.pssm_plan.specs.Ways.{IsWayIn, AreWaysIn};
ghost use Rattle.pssm_plan.specs.inner.ByWays.{calls_by};
ghost use Rattle.pssm_plan.specs.inner.Marks.{IsListed, IsLonger};
ghost use Rattle.pssm_plan.specs.inner.Sequence.{IsRoster, IsExtended};
ghost use Rattle.pssm_plan.specs.inner.Calling.{IsTopOpening, IsExitBy, IsEffectBy, IsEntryBy, IsOpeningBy, IsPickBy};
ghost use Rattle.pssm_plan.specs.inner.Calling.{IsEffectAmong, IsEffectOf, IsEffectOfSome, IsPickAt, IsPickAtSome};
ghost use Rattle.pssm_plan.specs.inner.Calling.{IsOtherBy, IsReopened, IsLate, IsOfRestored, IsOpeningOf, MayRun};
ghost use Rattle.pssm_plan.specs.inner.Direct.{IsDirect, HasNoneInside, IsReopenedIn};
ghost use Rattle.pssm_plan.specs.inner.Calling.{IsDefaultOf, IsRestoredOf, IsOpenedByEntry, IsEntered};

use crate::direct::{direct_region, quiet_region};
use crate::near::comes_near;
use crate::progress::Restored;
use crate::roster::Roster;
use crate::ways::{Way, some_way_opens, way_calls, way_opens};
use pssm_config::Config;
use pssm_legs::Leg;
use pssm_model::{Item, Machine, Mode, Owner, RegionId, TransId, VertexId};
use std::alloc::AllocError as NoMemory;

// Whether a vertex is active, and the way calls its exit.
fn calls_exit(machine: &Machine, config: &Config, way: &Way, s: VertexId) -> bool
    requires rules { KeepsModelRules machine.now }
    requires fits { Fits machine.now config.now }
    requires way { IsWayIn machine.now way.now }
    requires vertex { s.0 < length machine.now.vertices }
    ensures { IsTrue result ↔ ((configuration_of config.now).Active s × calls_by machine.now way.now (Called.Exit s)) }
{
    config.is_active(s) && way_calls(machine, way, Item::Exit(s))
}

// Whether the way calls the entry of a vertex. It enters what a leg ends on, the State of an entry point, and States in
// which that lies.
fn calls_entry(machine: &Machine, way: &Way, s: VertexId) -> bool
    requires rules { KeepsModelRules machine.now }
    requires way { IsWayIn machine.now way.now }
    requires vertex { s.0 < length machine.now.vertices }
    ensures { IsTrue result ↔ calls_by machine.now way.now (Called.Enter s) }
{
    comes_near(machine, way, s) && way_calls(machine, way, Item::Enter(s))
}

impl Roster {
    /// Lists the openings of the top regions.
    pub fn list_tops(&mut self, machine: &Machine) -> Result<(), NoMemory>
        requires roster { IsRoster machine.now self.old.calls.items }
        ensures calls { IsLonger self.old.calls.items self.new.calls.items }
        ensures added { OnOk result (IsExtended machine.now self.old.calls.items
            (IsTopOpening machine.now) self.new.calls.items) }
    {
        for r in machine.top_regions() {
            self.add(machine, Item::Opened(*r, Mode::Plain), true)?;
        }
        Ok(())
    }

    // Lists the exits of what is active where a way exits, asking of each vertex.
    #[inline(always)]
    fn list_all_exits(
        &mut self,
        machine: &Machine,
        config: &Config,
        way: &Way,
    ) -> Result<(), NoMemory>
        requires rules { KeepsModelRules machine.now }
        requires roster { IsRoster machine.now self.old.calls.items }
        requires fits { Fits machine.now config.now }
        requires way { IsWayIn machine.now way.now }
        ensures calls { IsLonger self.old.calls.items self.new.calls.items }
        ensures added { OnOk result (IsExtended machine.now self.old.calls.items
            (IsExitBy machine.now (configuration_of config.now) way.now) self.new.calls.items) }
    {
        for number in 0..machine.vertices() {
            let wanted = calls_exit(machine, config, way, VertexId(number));
            self.add(machine, Item::Exit(VertexId(number)), wanted)?;
        }
        Ok(())
    }

    // Lists the exit of the active vertex of a region where a way exits that ends in it and no other region lies in it.
    #[inline(never)]
    fn list_exit_in(
        &mut self,
        machine: &Machine,
        config: &Config,
        way: &Way,
        r: RegionId,
    ) -> Result<(), NoMemory>
        requires rules { KeepsModelRules machine.now }
        requires roster { IsRoster machine.now self.old.calls.items }
        requires fits { Fits machine.now config.now }
        requires way { IsWayIn machine.now way.now }
        requires direct { IsDirect machine.now way.now r }
        requires quiet { HasNoneInside machine.now r }
        ensures calls { IsLonger self.old.calls.items self.new.calls.items }
        ensures added { OnOk result (IsExtended machine.now self.old.calls.items
            (IsExitBy machine.now (configuration_of config.now) way.now) self.new.calls.items) }
    {
        let _shaped = machine.regions();
        match config.active_in(r) {
            Some(s) => self.list_called(machine, way, Item::Exit(s)),
            None => Ok(()),
        }
    }

    // Lists the exits of what is active where a way exits.
    #[inline(always)]
    fn list_exits(&mut self, machine: &Machine, config: &Config, way: &Way) -> Result<(), NoMemory>
        requires rules { KeepsModelRules machine.now }
        requires roster { IsRoster machine.now self.old.calls.items }
        requires fits { Fits machine.now config.now }
        requires way { IsWayIn machine.now way.now }
        ensures calls { IsLonger self.old.calls.items self.new.calls.items }
        ensures added { OnOk result (IsExtended machine.now self.old.calls.items
            (IsExitBy machine.now (configuration_of config.now) way.now) self.new.calls.items) }
    {
        match quiet_region(machine, way) {
            Some(r) => self.list_exit_in(machine, config, way, r),
            None => self.list_all_exits(machine, config, way),
        }
    }

    // Lists the effects of transitions.
    fn list_transitions(
        &mut self,
        machine: &Machine,
        transitions: &[TransId],
    ) -> Result<(), NoMemory>
        requires roster { IsRoster machine.now self.old.calls.items }
        requires there { (t : Transition) → Contains transitions.now t → t.0 < length machine.now.transitions }
        ensures calls { IsLonger self.old.calls.items self.new.calls.items }
        ensures added { OnOk result (IsExtended machine.now self.old.calls.items
            (IsEffectAmong transitions.now) self.new.calls.items) }
    {
        for t in transitions {
            self.add(machine, Item::Effect(*t), true)?;
        }
        Ok(())
    }

    // Lists the effects of the transitions of a leg.
    fn list_leg(&mut self, machine: &Machine, leg: &Leg) -> Result<(), NoMemory>
        requires roster { IsRoster machine.now self.old.calls.items }
        requires leg { IsLegIn machine.now leg.now }
        ensures calls { IsLonger self.old.calls.items self.new.calls.items }
        ensures added { OnOk result (IsExtended machine.now self.old.calls.items
            (IsEffectOf leg.now) self.new.calls.items) }
    {
        self.add(machine, Item::Effect(leg.named), true)?;
        self.list_transitions(machine, leg.further.as_slice())
    }

    // Lists the effects of the transitions of legs.
    fn list_legs(&mut self, machine: &Machine, legs: &[Leg]) -> Result<(), NoMemory>
        requires roster { IsRoster machine.now self.old.calls.items }
        requires legs { (leg : TakenLeg) → Contains legs.now leg → IsLegIn machine.now leg }
        ensures calls { IsLonger self.old.calls.items self.new.calls.items }
        ensures added { OnOk result (IsExtended machine.now self.old.calls.items
            (IsEffectOfSome legs.now) self.new.calls.items) }
    {
        for leg in legs {
            self.list_leg(machine, leg)?;
        }
        Ok(())
    }

    // Lists the effects that a way calls: those of the transitions of its legs.
    fn list_effects(&mut self, machine: &Machine, way: &Way) -> Result<(), NoMemory>
        requires roster { IsRoster machine.now self.old.calls.items }
        requires way { IsWayIn machine.now way.now }
        ensures calls { IsLonger self.old.calls.items self.new.calls.items }
        ensures added { OnOk result (IsExtended machine.now self.old.calls.items
            (IsEffectBy machine.now way.now) self.new.calls.items) }
    {
        self.list_leg(machine, &way.legs.first)?;
        self.list_legs(machine, way.legs.more.as_slice())
    }

    // Lists an item where a way calls it.
    #[inline(always)]
    fn list_called(&mut self, machine: &Machine, way: &Way, item: Item) -> Result<(), NoMemory>
        requires rules { KeepsModelRules machine.now }
        requires roster { IsRoster machine.now self.old.calls.items }
        requires way { IsWayIn machine.now way.now }
        requires item { IsItemIn machine.now item }
        ensures calls { IsLonger self.old.calls.items self.new.calls.items }
        ensures added { OnOk result (IsExtended machine.now self.old.calls.items
            (λ x. (x ≡ item) × calls_by machine.now way.now item) self.new.calls.items) }
    {
        let wanted = way_calls(machine, way, item);
        self.add(machine, item, wanted)
    }

    // Lists the entries that a way calls, asking of each vertex.
    #[inline(never)]
    fn list_all_entries(&mut self, machine: &Machine, way: &Way) -> Result<(), NoMemory>
        requires rules { KeepsModelRules machine.now }
        requires roster { IsRoster machine.now self.old.calls.items }
        requires way { IsWayIn machine.now way.now }
        ensures calls { IsLonger self.old.calls.items self.new.calls.items }
        ensures added { OnOk result (IsExtended machine.now self.old.calls.items
            (IsEntryBy machine.now way.now) self.new.calls.items) }
    {
        let _shaped = machine.regions();
        for number in 0..machine.vertices() {
            let wanted = calls_entry(machine, way, VertexId(number));
            self.add(machine, Item::Enter(VertexId(number)), wanted)?;
        }
        Ok(())
    }

    // Lists the entries that a way calls.
    #[inline(always)]
    fn list_entries(&mut self, machine: &Machine, way: &Way) -> Result<(), NoMemory>
        requires rules { KeepsModelRules machine.now }
        requires roster { IsRoster machine.now self.old.calls.items }
        requires way { IsWayIn machine.now way.now }
        ensures calls { IsLonger self.old.calls.items self.new.calls.items }
        ensures added { OnOk result (IsExtended machine.now self.old.calls.items
            (IsEntryBy machine.now way.now) self.new.calls.items) }
    {
        let _shaped = machine.regions();
        match direct_region(machine, way) {
            Some(_) => self.list_called(machine, way, Item::Enter(way.legs.first.last)),
            None => self.list_all_entries(machine, way),
        }
    }

    // Lists the openings in a mode that a way calls, asking of each region.
    #[inline(never)]
    fn list_all_openings(
        &mut self,
        machine: &Machine,
        way: &Way,
        mode: Mode,
    ) -> Result<(), NoMemory>
        requires rules { KeepsModelRules machine.now }
        requires roster { IsRoster machine.now self.old.calls.items }
        requires way { IsWayIn machine.now way.now }
        ensures calls { IsLonger self.old.calls.items self.new.calls.items }
        ensures added { OnOk result (IsExtended machine.now self.old.calls.items
            (IsOpeningBy machine.now way.now mode) self.new.calls.items) }
    {
        for number in 0..machine.regions() {
            let opening = Item::Opened(RegionId(number), mode);
            let wanted = way_calls(machine, way, opening);
            self.add(machine, opening, wanted)?;
        }
        Ok(())
    }

    // Lists the openings in a mode that a way calls.
    #[inline(always)]
    fn list_openings(&mut self, machine: &Machine, way: &Way, mode: Mode) -> Result<(), NoMemory>
        requires rules { KeepsModelRules machine.now }
        requires roster { IsRoster machine.now self.old.calls.items }
        requires way { IsWayIn machine.now way.now }
        ensures calls { IsLonger self.old.calls.items self.new.calls.items }
        ensures added { OnOk result (IsExtended machine.now self.old.calls.items
            (IsOpeningBy machine.now way.now mode) self.new.calls.items) }
    {
        let _shaped = machine.regions();
        match direct_region(machine, way) {
            Some(r) => self.list_called(machine, way, Item::Opened(r, mode)),
            None => self.list_all_openings(machine, way, mode),
        }
    }

    // Lists the pick of the vertex on which a leg of a way ends, where the way calls it.
    #[inline(always)]
    fn list_pick(&mut self, machine: &Machine, way: &Way, leg: &Leg) -> Result<(), NoMemory>
        requires rules { KeepsModelRules machine.now }
        requires roster { IsRoster machine.now self.old.calls.items }
        requires way { IsWayIn machine.now way.now }
        requires leg { IsLegIn machine.now leg.now }
        ensures calls { IsLonger self.old.calls.items self.new.calls.items }
        ensures added { OnOk result (IsExtended machine.now self.old.calls.items
            (IsPickAt machine.now way.now leg.now) self.new.calls.items) }
    {
        let pick = Item::Pick(leg.last);
        let wanted = way_calls(machine, way, pick);
        self.add(machine, pick, wanted)
    }

    // Lists such picks of some of the legs.
    #[inline(never)]
    fn list_further_picks(
        &mut self,
        machine: &Machine,
        way: &Way,
        legs: &[Leg],
    ) -> Result<(), NoMemory>
        requires rules { KeepsModelRules machine.now }
        requires roster { IsRoster machine.now self.old.calls.items }
        requires way { IsWayIn machine.now way.now }
        requires legs { (leg : TakenLeg) → Contains legs.now leg → IsLegIn machine.now leg }
        ensures calls { IsLonger self.old.calls.items self.new.calls.items }
        ensures added { OnOk result (IsExtended machine.now self.old.calls.items
            (IsPickAtSome machine.now way.now legs.now) self.new.calls.items) }
    {
        for leg in legs {
            self.list_pick(machine, way, leg)?;
        }
        Ok(())
    }

    // Lists the picks that a way calls: of the choices on which its legs end.
    #[inline(always)]
    fn list_picks(&mut self, machine: &Machine, way: &Way) -> Result<(), NoMemory>
        requires rules { KeepsModelRules machine.now }
        requires roster { IsRoster machine.now self.old.calls.items }
        requires way { IsWayIn machine.now way.now }
        ensures calls { IsLonger self.old.calls.items self.new.calls.items }
        ensures added { OnOk result (IsExtended machine.now self.old.calls.items
            (IsPickBy machine.now way.now) self.new.calls.items) }
    {
        self.list_pick(machine, way, &way.legs.first)?;
        self.list_further_picks(machine, way, way.legs.more.as_slice())
    }

    // Lists what a way calls, but for exits.
    fn list_others(&mut self, machine: &Machine, way: &Way) -> Result<(), NoMemory>
        requires rules { KeepsModelRules machine.now }
        requires roster { IsRoster machine.now self.old.calls.items }
        requires way { IsWayIn machine.now way.now }
        ensures calls { IsLonger self.old.calls.items self.new.calls.items }
        ensures added { OnOk result (IsExtended machine.now self.old.calls.items
            (IsOtherBy machine.now way.now) self.new.calls.items) }
    {
        self.list_effects(machine, way)?;
        self.list_entries(machine, way)?;
        self.list_openings(machine, way, Mode::Plain)?;
        self.list_openings(machine, way, Mode::Shallow)?;
        self.list_openings(machine, way, Mode::Deep)?;
        self.list_picks(machine, way)
    }

    /// Lists what a way calls that fires.
    pub fn list_fired(
        &mut self,
        machine: &Machine,
        config: &Config,
        way: &Way,
    ) -> Result<(), NoMemory>
        requires rules { KeepsModelRules machine.now }
        requires roster { IsRoster machine.now self.old.calls.items }
        requires fits { Fits machine.now config.now }
        requires way { IsWayIn machine.now way.now }
        ensures calls { IsLonger self.old.calls.items self.new.calls.items }
        ensures added { OnOk result (IsExtended machine.now self.old.calls.items
            (λ x. MayRun (configuration_of config.now) x × calls_by machine.now way.now x) self.new.calls.items) }
    {
        self.list_exits(machine, config, way)?;
        self.list_others(machine, way)
    }

    // Whether the region is one of a State whose entry has run, and opens now since the way enters the State.
    fn is_reopened(&self, machine: &Machine, way: &Way, r: RegionId) -> bool
        requires rules { KeepsModelRules machine.now }
        requires way { IsWayIn machine.now way.now }
        requires region { r.0 < length machine.now.regions }
        ensures { IsTrue result ↔ IsReopened machine.now self.now.calls.items way.now (Called.Opened r Mode.Plain) }
    {
        let _shaped = machine.regions();
        match machine.region_owner(r) {
            Owner::State(s) => {
                way_opens(machine, way, s, r) && self.calls.has_run(Item::Enter(s))
            }
            Owner::Top | Owner::Region(_) => false,
        }
    }

    // Lists the openings of regions of a State whose entry has run, and which a way enters once more.
    fn list_reopened_in(
        &mut self,
        machine: &Machine,
        way: &Way,
        s: VertexId,
    ) -> Result<(), NoMemory>
        requires rules { KeepsModelRules machine.now }
        requires roster { IsRoster machine.now self.old.calls.items }
        requires way { IsWayIn machine.now way.now }
        requires state { s.0 < length machine.now.vertices }
        ensures calls { IsLonger self.old.calls.items self.new.calls.items }
        ensures added { OnOk result (IsExtended machine.now self.old.calls.items
            (IsReopenedIn machine.now self.old.calls.items way.now s) self.new.calls.items) }
    {
        for r in machine.regions_of(s) {
            let reopened = self.is_reopened(machine, way, *r);
            self.add(machine, Item::Opened(*r, Mode::Plain), reopened)?;
        }
        Ok(())
    }

    // Lists the openings of regions of States whose entries have run, and which a way enters once more, asking of each
    // region.
    #[inline(never)]
    fn list_all_reopened(&mut self, machine: &Machine, way: &Way) -> Result<(), NoMemory>
        requires rules { KeepsModelRules machine.now }
        requires roster { IsRoster machine.now self.old.calls.items }
        requires way { IsWayIn machine.now way.now }
        ensures calls { IsLonger self.old.calls.items self.new.calls.items }
        ensures added { OnOk result (IsExtended machine.now self.old.calls.items
            (IsReopened machine.now self.old.calls.items way.now) self.new.calls.items) }
    {
        for number in 0..machine.regions() {
            let reopened = self.is_reopened(machine, way, RegionId(number));
            self.add(
                machine,
                Item::Opened(RegionId(number), Mode::Plain),
                reopened,
            )?;
        }
        Ok(())
    }

    // Lists the openings of regions of States whose entries have run, and which a way enters once more.
    fn list_reopened(&mut self, machine: &Machine, way: &Way) -> Result<(), NoMemory>
        requires rules { KeepsModelRules machine.now }
        requires roster { IsRoster machine.now self.old.calls.items }
        requires way { IsWayIn machine.now way.now }
        ensures calls { IsLonger self.old.calls.items self.new.calls.items }
        ensures added { OnOk result (IsExtended machine.now self.old.calls.items
            (IsReopened machine.now self.old.calls.items way.now) self.new.calls.items) }
    {
        let _shaped = machine.regions();
        match direct_region(machine, way) {
            Some(_) => self.list_reopened_in(machine, way, way.legs.first.last),
            None => self.list_all_reopened(machine, way),
        }
    }

    /// Lists what a late way calls.
    pub fn list_late(&mut self, machine: &Machine, way: &Way) -> Result<(), NoMemory>
        requires rules { KeepsModelRules machine.now }
        requires roster { IsRoster machine.now self.old.calls.items }
        requires way { IsWayIn machine.now way.now }
        ensures calls { IsLonger self.old.calls.items self.new.calls.items }
        ensures added { OnOk result (IsExtended machine.now self.old.calls.items
            (IsLate machine.now self.old.calls.items way.now) self.new.calls.items) }
    {
        self.list_others(machine, way)?;
        self.list_reopened(machine, way)
    }

    // Lists the openings of a State's regions in a mode, where this is wanted.
    fn list_regions(
        &mut self,
        machine: &Machine,
        s: VertexId,
        mode: Mode,
        wanted: bool,
    ) -> Result<(), NoMemory>
        requires roster { IsRoster machine.now self.old.calls.items }
        requires state { s.0 < length machine.now.vertices }
        ensures calls { IsLonger self.old.calls.items self.new.calls.items }
        ensures added { OnOk result (IsExtended machine.now self.old.calls.items
            (λ x. IsTrue wanted × IsOpeningOf machine.now s mode x) self.new.calls.items) }
    {
        for r in machine.regions_of(s) {
            self.add(machine, Item::Opened(*r, mode), wanted)?;
        }
        Ok(())
    }

    /// Lists what a State calls that is restored: its entry, and where that has run, the openings of its regions.
    pub fn list_restored(
        &mut self,
        machine: &Machine,
        mode: Mode,
        s: VertexId,
    ) -> Result<(), NoMemory>
        requires roster { IsRoster machine.now self.old.calls.items }
        requires state { s.0 < length machine.now.vertices }
        ensures calls { IsLonger self.old.calls.items self.new.calls.items }
        ensures added { OnOk result (IsExtended machine.now self.old.calls.items
            (IsOfRestored machine.now self.old.calls.items mode s) self.new.calls.items) }
    {
        self.add(machine, Item::Enter(s), true)?;
        let ran = self.calls.has_run(Item::Enter(s));
        self.list_regions(machine, s, restored_mode(mode), ran)
    }

    // Lists the openings of a State's regions that open since one of the ways enters the State.
    fn list_defaults(
        &mut self,
        machine: &Machine,
        ways: &[Way],
        s: VertexId,
    ) -> Result<(), NoMemory>
        requires rules { KeepsModelRules machine.now }
        requires roster { IsRoster machine.now self.old.calls.items }
        requires ways { AreWaysIn machine.now ways.now }
        requires state { s.0 < length machine.now.vertices }
        ensures calls { IsLonger self.old.calls.items self.new.calls.items }
        ensures added { OnOk result (IsExtended machine.now self.old.calls.items
            (IsDefaultOf machine.now ways.now s) self.new.calls.items) }
    {
        for r in machine.regions_of(s) {
            let opens = some_way_opens(machine, ways, s, *r);
            self.add(machine, Item::Opened(*r, Mode::Plain), opens)?;
        }
        Ok(())
    }

    // Lists the openings of the regions of a State that has been restored.
    fn list_as_restored(
        &mut self,
        machine: &Machine,
        restored: &[Restored],
        s: VertexId,
    ) -> Result<(), NoMemory>
        requires roster { IsRoster machine.now self.old.calls.items }
        requires state { s.0 < length machine.now.vertices }
        ensures calls { IsLonger self.old.calls.items self.new.calls.items }
        ensures added { OnOk result (IsExtended machine.now self.old.calls.items
            (IsRestoredOf machine.now restored.now s) self.new.calls.items) }
    {
        for one in restored {
            let wanted = is_of(*one, s);
            self.list_regions(machine, s, restored_mode(one.mode), wanted)?;
        }
        Ok(())
    }

    // Lists what the entry of a State opens.
    fn list_opened(
        &mut self,
        machine: &Machine,
        ways: &[Way],
        restored: &[Restored],
        s: VertexId,
    ) -> Result<(), NoMemory>
        requires rules { KeepsModelRules machine.now }
        requires roster { IsRoster machine.now self.old.calls.items }
        requires ways { AreWaysIn machine.now ways.now }
        requires state { s.0 < length machine.now.vertices }
        ensures calls { IsLonger self.old.calls.items self.new.calls.items }
        ensures added { OnOk result (IsExtended machine.now self.old.calls.items
            (IsOpenedByEntry machine.now ways.now restored.now s) self.new.calls.items) }
    {
        self.list_defaults(machine, ways, s)?;
        self.list_as_restored(machine, restored, s)
    }

    /// Lists what an item calls once it has run, besides what it calls by its way.
    #[inline(always)]
    #[tactic(auto, using(crate::proofs::Extending::extended_none, crate::proofs::Growing::longer_same))]
    pub fn list_entered(
        &mut self,
        machine: &Machine,
        ways: &[Way],
        restored: &[Restored],
        item: Item,
    ) -> Result<(), NoMemory>
        requires rules { KeepsModelRules machine.now }
        requires roster { IsRoster machine.now self.old.calls.items }
        requires ways { AreWaysIn machine.now ways.now }
        requires item { IsItemIn machine.now item }
        ensures calls { IsLonger self.old.calls.items self.new.calls.items }
        ensures added { OnOk result (IsExtended machine.now self.old.calls.items
            (IsEntered machine.now ways.now restored.now item) self.new.calls.items) }
    {
        match item {
            Item::Enter(s) => self.list_opened(machine, ways, restored, s),
            Item::Exit(_) | Item::Effect(_) | Item::Opened(_, _) | Item::Pick(_) => Ok(()),
        }
    }
}

// Whether this is the State that was restored.
fn is_of(one: Restored, s: VertexId) -> bool
    ensures { IsTrue result ↔ (one.state ≡ s) }
{
    one.state == s
}

// How the regions of a restored State open: by default after a shallow history, deeply after a deep one.
fn restored_mode(mode: Mode) -> Mode
    ensures { result ≡ opened_mode mode }
{
    match mode {
        Mode::Plain | Mode::Shallow => Mode::Plain,
        Mode::Deep => Mode::Deep,
    }
}
