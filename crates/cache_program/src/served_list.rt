//! A payload list that is served while its file changes.
ghost use Rattle.std.specs.Prelude.{◌≡◌, ◌≢◌, ◌+◌, Ok, Err, None, Some, IfNone, IfSome, MatchResult, false, is_some, length, true};
ghost use Rattle.std.specs.Fn.{FnReturnsAt};
ghost use Rattle.cache_turns.specs.Turns.{TakesTurn, WithdrawsSet};
ghost use Rattle.list_guards.specs.Guarding.{guard_fault};
ghost use Rattle.payload_sources.specs.PayloadSources.{texts_of};
ghost use Rattle.cache_program.specs.Figures.{figures_of};
ghost use Rattle.cache_program.specs.Opened.{GivesAt};
ghost use Rattle.cache_program.specs.Intervals.{is_due_at, since_after};
ghost use Rattle.cache_program.specs.Rereads.{IsKept, IsKeptOut, IsLetIn, IsNewest, KeepsCount, LooksAt, Notes, Publishes, Rereads, RereadsFile, RereadsWhenDue, ServesAt, WithdrawsWhere, age_told, are_known, is_older, is_stale, newest_set, served_set, stands};
ghost use Rattle.cache_program.specs.ServedTurns.{count_accepted, is_read};

use crate::files::open_files;
use crate::interval::Interval;
use cache_desk::Reading;
use cache_figures::CacheFigures;
use cache_settings::CacheSettings;
use cache_turns::CacheLoop;
use cache_watch::{FileAge, ListFault, Reread};
use file_paths::Steady;
use list_guards::{GuardFault, Guards};
use net_prefix::Vrp;
use payload_sources::{SourceFile, SourceStamps, Sources, Unopened, read_sources};
use std::alloc::Global;
use std::collections::BTreeSet;
use std::io::{self, Read};
use std::marker::Model;
use std::time::Duration;
use vrp_json::Written;
use wires::{LoopFault, Wire};

/// The turns of a cache, and what it serves.
#[derive(Drop)]
pub struct ServedList<W: Wire> {
    turns: CacheLoop<W>,
    // What a list has to keep to.
    guards: Guards,
    // The serial that is served.
    serial: u32,
    // How many payloads the set that is served has.
    payloads: usize,
    // The set that is served, where a guard looks at it.
    looked_at: BTreeSet<Vrp>,
    // The moment when a list was read last that could be had.
    read: u64,
    // Whether an operator had the guards set aside for the list that is served.
    accepted: bool,
    // How many payloads the list had that was refused when it was read last, where an operator may accept it.
    refused: Option<usize>,
    // How many seconds old that list was when it was read.
    age: u64,
    // How many seconds old one may be, else it is withdrawn.
    most: Option<u32>,
    // When it says that it was written.
    written: Written,
    // The stamps of the files that it was read from, by which they are known again, if each is.
    stamps: Option<SourceStamps>,
}

impl<W: Wire> Model for ServedList<W> {
    ghost use Rattle.cache_program.specs.Rereads.{IsServing, Served};

    ghost Value = { Served };

    ghost view = { λ s. record { turns = s.turns; guards = s.guards; serial = s.serial; payloads = s.payloads; read = s.read; accepted = s.accepted; refused = s.refused; age = s.age; most = s.most; written = s.written; stamps = s.stamps } };

    ghost invariant = { λ s. IsServing s.guards s.turns.cache.shared.kept s.serial s.payloads s.looked_at.keys };
}

impl<W: Wire + Drop> ServedList<W> {
    /// The turns of a cache that serves this set under this serial, at the moment 0, of a list that says that it was written
    /// then. Lists have to keep to these guards.
    pub fn new(
        turns: CacheLoop<W>,
        guards: Guards,
        serial: u32,
        set: BTreeSet<Vrp>,
        written: Written,
    ) -> Self
        requires newest { IsNewest turns.cache.shared.kept serial (length set.keys) }
        requires set { set.keys ≡ newest_set turns.cache.shared.kept }
        ensures { result ≡ record { turns = turns; guards = guards; serial = serial; payloads = length set.keys; read = 0; accepted = false; refused = None; age = 0; most = None; written = written; stamps = None } }
    {
        let payloads = set.len();
        ServedList {
            turns,
            guards,
            serial,
            payloads,
            looked_at: kept_for(&guards, set),
            read: 0,
            accepted: false,
            refused: None,
            age: 0,
            most: None,
            written,
            stamps: None,
        }
    }

    /// The same, with the list as old as this, and how old one may be, else it is withdrawn.
    pub fn aged(self, age: u64, most: Option<u32>) -> Self
        ensures { result ≡ record self { age = age; most = most } }
    {
        let mut served = self;
        served.age = age;
        served.most = most;
        served
    }

    /// The same, whose files are known again by these stamps.
    pub fn known_by(self, stamps: Option<SourceStamps>) -> Self
        ensures { result ≡ record self { stamps = stamps } }
    {
        let mut served = self;
        served.stamps = stamps;
        served
    }

    /// A turn, which publishes nothing.
    pub fn turn(&mut self, now: u64) -> Result<(), LoopFault>
        ensures takes { TakesTurn now self.old.turns result self.new.turns }
        ensures same { self.new ≡ record self.old { turns = self.new.turns } }
    {
        self.turns.turn(now)
    }

    /// What is done at a moment: where the list is due, or an operator asks for it, the files of the settings are opened and it
    /// is read again, at this second since 1970, as old as it is then, unless they are unchanged and no operator asks; what is too
    /// old is withdrawn; then a turn is taken. Answers what the reading has led to, where the list was due or asked for, and what
    /// the turn has.
    pub fn serve<L: Read + Steady + Drop, F: Fn(&str) -> io::Result<L>>(
        &mut self,
        alloc: Global,
        now: u64,
        age: FileAge,
        asked: Option<Reading>,
        due: &mut Interval,
        settings: &CacheSettings,
        second: u64,
        opens: &F,
    ) -> (Option<Reread>, Result<(), LoopFault>)
        requires { F.IsAlwaysCallable opens.now }
        ensures serves { ServesAt (GivesAt (FnReturnsAt F.Fn opens.now) L.remaining L.stamp settings.now second) (is_some asked) (count_accepted asked self.old) (is_read asked (is_due_at due.old.seconds due.old.since now)) now age self.old result.0 result.1 self.new }
        ensures due { due.new ≡ record due.old { since = since_after due.old.since now result.0 } }
    {
        let is_read = is_read(asked, due.is_due(now));
        let accepts = self.count_accepted(asked);
        let is_asked = asked.is_some();
        let reread = self.reread_if(
            is_read, alloc, now, age, is_asked, accepts, settings, second, opens,
        );
        due.note(reread);
        self.withdraw_stale(now);
        (reread, self.turn(now))
    }

    fn reread_if<L: Read + Steady + Drop, F: Fn(&str) -> io::Result<L>>(
        &mut self,
        is_read: bool,
        alloc: Global,
        now: u64,
        age: FileAge,
        is_asked: bool,
        accepts: Option<usize>,
        settings: &CacheSettings,
        second: u64,
        opens: &F,
    ) -> Option<Reread>
        requires { F.IsAlwaysCallable opens.now }
        ensures { RereadsWhenDue (GivesAt (FnReturnsAt F.Fn opens.now) L.remaining L.stamp settings.now second) is_asked accepts is_read now age self.old result self.new }
    {
        if is_read {
            let files = open_files(settings, second, opens);
            Some(self.look(alloc, now, age, is_asked, accepts, files))
        } else {
            None
        }
    }

    // Reads files that were opened, unless they are unchanged and no operator asks.
    fn look<L: Read + Steady + Drop>(
        &mut self,
        alloc: Global,
        now: u64,
        age: FileAge,
        is_asked: bool,
        accepts: Option<usize>,
        sources: Result<Sources<L>, Unopened>,
    ) -> Reread
        ensures { MatchResult sources (λ files. LooksAt is_asked accepts now age (Ok (texts_of L.remaining L.stamp files.list files.slurm files.second)) self.old result self.new) (λ unopened. LooksAt is_asked accepts now age (Err unopened.file) self.old result self.new) }
    {
        match sources {
            Ok(files) => self.look_at(alloc, now, age, is_asked, accepts, files),
            Err(unopened) => self.lack(unopened.file),
        }
    }

    fn look_at<L: Read + Steady + Drop>(
        &mut self,
        alloc: Global,
        now: u64,
        age: FileAge,
        is_asked: bool,
        accepts: Option<usize>,
        files: Sources<L>,
    ) -> Reread
        ensures { LooksAt is_asked accepts now age (Ok (texts_of L.remaining L.stamp files.list files.slurm files.second)) self.old result self.new }
    {
        let stands = self.stands(age, &files) && !is_asked;
        if stands {
            return self.keep(now, age);
        }
        self.reread_files(alloc, now, age, accepts, files)
    }

    // Whether what was read last stands, where these files were opened.
    fn stands<L: Read + Steady>(&self, age: FileAge, files: &Sources<L>) -> bool
        ensures { result ≡ stands age (Ok (texts_of L.remaining L.stamp files.now.list files.now.slurm files.now.second)) self.now }
    {
        files.second.is_none()
            && are_known(files.stamps(), self.stamps)
            && !self.accepted
            && !self.is_withdrawn()
            && !is_older(self.most, age_told(self.written, age))
    }

    // What was read last stands at this moment.
    fn keep(&mut self, now: u64, age: FileAge) -> Reread
        ensures unchanged { result ≡ Reread.Unchanged }
        ensures stands { IsKept now age self.old self.new }
    {
        self.age = age_told(self.written, age);
        self.read = now;
        self.refused = None;
        Reread::Unchanged
    }

    // A file couldn't be opened.
    fn lack(&mut self, file: SourceFile) -> Reread
        ensures { (result ≡ Reread.Refused (ListFault.NoFile file)) × KeepsCount (ListFault.NoFile file) self.old self.new }
    {
        self.refused = None;
        Reread::Refused(ListFault::NoFile(file))
    }

    /// Rests until a turn may find something to do, or so long.
    pub fn wait(&mut self, most: Duration)
        ensures { self.new ≡ self.old }
    {
        self.turns.wait(most);
    }

    /// Takes the set of files that were opened again at this moment, with a list as old as this. One that can't be had, or that
    /// a guard refuses, or that is too old, changes nothing but what an operator may accept next, and one that is served
    /// already publishes nothing. Where an operator accepts what is refused so, a list of as many payloads isn't, and any other
    /// is.
    pub fn reread<L: Read + Steady + Drop>(
        &mut self,
        alloc: Global,
        now: u64,
        age: FileAge,
        accepts: Option<usize>,
        sources: Result<Sources<L>, Unopened>,
    ) -> Reread
        ensures { MatchResult sources (λ files. Rereads accepts now age (Ok (texts_of L.remaining L.stamp files.list files.slurm files.second)) self.old result self.new) (λ unopened. Rereads accepts now age (Err unopened.file) self.old result self.new) }
    {
        match sources {
            Ok(files) => self.reread_files(alloc, now, age, accepts, files),
            Err(unopened) => self.lack(unopened.file),
        }
    }

    fn reread_files<L: Read + Steady + Drop>(
        &mut self,
        alloc: Global,
        now: u64,
        age: FileAge,
        accepts: Option<usize>,
        files: Sources<L>,
    ) -> Reread
        ensures { RereadsFile accepts now age (texts_of L.remaining L.stamp files.list files.slurm files.second) self.old result self.new }
    {
        match read_sources(alloc, files) {
            Ok(read) => {
                let age = age_told(read.written, age);
                self.publish(now, age, accepts, read.set, read.written, read.stamps)
            }
            Err(refused) => {
                self.refused = None;
                Reread::Refused(ListFault::Source(refused))
            }
        }
    }

    // Hands a set of this age to the cache that is let in.
    fn publish(
        &mut self,
        now: u64,
        age: u64,
        accepts: Option<usize>,
        set: BTreeSet<Vrp>,
        written: Written,
        stamps: Option<SourceStamps>,
    ) -> Reread
        ensures publishes { Publishes accepts now age set.keys self.old result self.new }
        ensures notes { Notes written stamps result self.new }
    {
        match self.admit(age, accepts, &set) {
            Ok(()) => self.hand_in(now, age, accepts, set, written, stamps),
            Err(why) => {
                self.refused = why.payloads();
                Reread::Refused(why)
            }
        }
    }

    // Whether a set of this age is let in: where an operator accepts it, one that has as many payloads as the one that was
    // refused, and else one that isn't too old and that the guards let pass.
    fn admit(&self, age: u64, accepts: Option<usize>, set: &BTreeSet<Vrp>) -> Result<(), ListFault>
        ensures { MatchResult result (λ passed. IsLetIn accepts age set.now.keys self.now) (λ why. IsKeptOut accepts age set.now.keys self.now why) }
    {
        match accepts {
            Some(refused) => admit_shown(set.len(), refused),
            None => self.admit_guarded(age, set),
        }
    }

    fn admit_guarded(&self, age: u64, set: &BTreeSet<Vrp>) -> Result<(), ListFault>
        ensures { MatchResult result (λ passed. IsLetIn None age set.now.keys self.now) (λ why. IsKeptOut None age set.now.keys self.now why) }
    {
        if let Some(most) = self.too_old(age) {
            return Err(ListFault::Old {
                payloads: set.len(),
                seconds: age,
                most,
            });
        }
        match self.judge(set) {
            Ok(()) => Ok(()),
            Err(why) => Err(ListFault::Guard(why)),
        }
    }

    // How old a list may be, where one of this age is too old to be taken.
    fn too_old(&self, age: u64) -> Option<u32>
        ensures old { IfSome result (λ most. (is_older self.now.most age ≡ true) × (self.now.most ≡ Some most)) }
        ensures young { IfNone result (is_older self.now.most age ≡ false) }
    {
        if is_older(self.most, age) {
            return self.most;
        }
        None
    }

    // Whether the guards let a set be served in the place of this one.
    fn judge(&self, set: &BTreeSet<Vrp>) -> Result<(), GuardFault>
        ensures { MatchResult result (λ passed. guard_fault self.now.guards (served_set self.now) set.now.keys ≡ None) (λ why. guard_fault self.now.guards (served_set self.now) set.now.keys ≡ Some why) }
    {
        self.guards.judge(&self.looked_at, set)
    }

    // Hands a set to the cache.
    fn hand_in(
        &mut self,
        now: u64,
        age: u64,
        accepts: Option<usize>,
        set: BTreeSet<Vrp>,
        written: Written,
        stamps: Option<SourceStamps>,
    ) -> Reread
        requires { IsLetIn accepts age set.keys self.old }
        ensures publishes { Publishes accepts now age set.keys self.old result self.new }
        ensures notes { Notes written stamps result self.new }
    {
        let Ok(report) = self.turns.load(&set) else {
            self.refused = None;
            return Reread::Refused(ListFault::NoMemory);
        };
        let before = self.serial;
        self.serial = report.serial.unwrap_or(before);
        self.payloads = set.len();
        self.looked_at = kept_for(&self.guards, set);
        self.read = now;
        self.accepted = accepts.is_some();
        self.refused = None;
        self.age = age;
        self.written = written;
        self.stamps = stamps;
        if self.serial == before {
            return Reread::Same;
        }
        Reread::Published(self.serial)
    }

    // Withdraws what is too old.
    fn withdraw_stale(&mut self, now: u64)
        ensures { WithdrawsWhere (is_stale now self.old) self.old self.new }
    {
        if self.is_stale(now) {
            self.withdraw();
        }
    }

    fn withdraw(&mut self)
        ensures withdraws { WithdrawsSet self.old.turns self.new.turns }
        ensures same { self.new ≡ record self.old { turns = self.new.turns } }
    {
        self.turns.withdraw();
    }

    // How many payloads the list has that is taken whatever the guards say, where an operator accepts it.
    fn count_accepted(&self, asked: Option<Reading>) -> Option<usize>
        ensures { result ≡ count_accepted asked self.now }
    {
        match asked {
            Some(Reading::Accept) => self.refused,
            Some(Reading::Reread) | None => None,
        }
    }

    fn is_stale(&self, now: u64) -> bool
        ensures { result ≡ is_stale now self.now }
    {
        !self.accepted && will_be_older(self.most, self.age, now.saturating_sub(self.read))
    }

    /// Whether what is served is withdrawn, since it is too old.
    pub fn is_withdrawn(&self) -> bool
        ensures { result ≡ self.now.turns.cache.shared.withdrawn }
    {
        self.turns.cache().is_withdrawn()
    }

    /// How many seconds old the list is that is served, up to the greatest u64.
    pub fn age_at(&self, now: u64) -> u64 {
        self.age.saturating_add(now.saturating_sub(self.read))
    }

    /// What is served and what routers hold at this moment.
    pub fn figures(&self, now: u64) -> CacheFigures
        ensures { result ≡ figures_of now self.now }
    {
        let turns = &self.turns;
        let wire = turns.wire();
        let holding = turns.holding(self.serial);
        CacheFigures {
            serial: self.serial,
            payloads: self.payloads,
            routers: turns.connections(),
            current: holding.current,
            behind: holding.behind,
            without: holding.without,
            octets_in: wire.octets_in(),
            octets_out: wire.octets_out(),
            lost: turns.lost(),
            closed: turns.closed(),
            read: now.saturating_sub(self.read),
            withdrawn: turns.cache().is_withdrawn(),
        }
    }

    /// The turns.
    pub fn turns(&self) -> &CacheLoop<W>
        ensures { result.now ≡ self.now.turns }
    {
        &self.turns
    }

    /// The serial that is served.
    pub fn serial(&self) -> u32
        ensures { result ≡ self.now.serial }
    {
        self.serial
    }

    /// How many payloads are served.
    pub fn payloads(&self) -> usize
        ensures { result ≡ self.now.payloads }
    {
        self.payloads
    }

    /// The moment when a list was read last that could be had.
    pub fn read(&self) -> u64
        ensures { result ≡ self.now.read }
    {
        self.read
    }

    /// When the list that is served says that it was written.
    pub fn written(&self) -> Written
        ensures { result ≡ self.now.written }
    {
        self.written
    }

    /// Whether an operator had the guards set aside for the list that is served.
    pub fn accepted(&self) -> bool
        ensures { result ≡ self.now.accepted }
    {
        self.accepted
    }
}

/// How old a list is whose file is so old: as old as it says, if it does. One that has something for a time that is none
/// counts from its reading.
pub(crate) fn age_told(written: Written, file: FileAge) -> u64
    ensures { result ≡ age_told written file }
{
    match written {
        Written::Untold => file.seconds,
        Written::At(second) => file.second.saturating_sub(second),
        Written::Unread => 0,
    }
}

// Whether a list of this age is older than it may be.
fn is_older(most: Option<u32>, age: u64) -> bool
    ensures { result ≡ is_older most age }
{
    match most {
        Some(most) => age > most as u64,
        None => false,
    }
}

// Whether one of this age is, so many seconds later.
fn will_be_older(most: Option<u32>, age: u64, since: u64) -> bool
    ensures { result ≡ is_older most (age + since) }
{
    let Some(most) = most else {
        return false;
    };
    let most = most as u64;
    if age > most {
        return true;
    }
    since > most - age
}

// Whether the list is read at a moment at which it is due, or isn't.
fn is_read(asked: Option<Reading>, is_due: bool) -> bool
    ensures { result ≡ is_read asked is_due }
{
    match asked {
        Some(_) => true,
        None => is_due,
    }
}

// Whether files are known again by these stamps.
fn are_known(stamps: Option<SourceStamps>, known: Option<SourceStamps>) -> bool
    ensures { result ≡ are_known stamps known }
{
    let Some(stamps) = stamps else {
        return false;
    };
    match known {
        Some(known) => stamps.are(known),
        None => false,
    }
}

// Whether a list is let in that an operator accepts, by its count of payloads and that of the one that was refused.
fn admit_shown(payloads: usize, refused: usize) -> Result<(), ListFault>
    ensures { MatchResult result (λ passed. payloads ≡ refused) (λ why. (why ≡ ListFault.Other payloads refused) × (payloads ≢ refused)) }
{
    if payloads == refused {
        return Ok(());
    }
    Err(ListFault::Other { payloads, refused })
}

// The set, where a guard looks at it; else nothing of it is kept.
fn kept_for(guards: &Guards, set: BTreeSet<Vrp>) -> BTreeSet<Vrp>
    ensures { is_some guards.now.max_shrink ≡ true → result.keys ≡ set.keys }
{
    let mut set = set;
    if !guards.look_at_served() {
        set.clear();
    }
    set
}
