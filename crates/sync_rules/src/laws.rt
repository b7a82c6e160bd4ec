//! Laws over every run that is shared out: `s` is the run with its timelines and channels, `i` the
//! number of a timeline, `c` that of a channel, and times are in ticks.

ghost use Rattle.std.specs.Prelude.{◌≡◌, ◌⊎◌, ℕ, ◌+◌, ◌<◌, ◌≤◌, ◌++◌, max, Bool, List, [], ◌∷◌, true, false, suc, length, Some, None};
ghost use Rattle.event_order.specs.Order.{IsBefore};
ghost use Rattle.event_order.specs.Pending.{Among};
ghost use Rattle.event_order.specs.Laws.{IsLocal};
ghost use Rattle.ssf_model.specs.Scene.{Scene, world_at, event_at, time_of, channel_of};
ghost use Rattle.ssf_model.specs.Truth.{is_on_line, line_entries, IsWrite, IsPromise, IsTrueParcel, IsCut, IsLeastFrom, IsWindow, IsNext, HasReached};
ghost use Rattle.sync_rules.specs.Parts.{Line, MailOf, BarrierOf, CoreOf};
ghost use Rattle.sync_rules.specs.Bounds.{IsInto, IsOutOf, bound_of, low_of, promise_of, least_ahead_of, safe_bound};
ghost use Rattle.sync_rules.specs.Shared.{IsShared, IsWrittenBy};
ghost use Rattle.sync_rules.specs.Sound.{made, HasDone, IsCounted, IsSoundLine, IsSoundMail, IsReport, IsSoundBarrier, IsSoundCore, IsOwnEvent};
ghost use Rattle.sync_rules.specs.Steps.{CanExecute, CanEnter, CanReport, CanCross, IsCrossing, IsStep, BudgetEndsAt, first_line, first_core, executed_line, posted_line, posted_mail, taken_line, taken_mail, entered_line, reported_barrier, least_report};
ghost use Rattle.sync_rules.specs.Measure.{Left, IsLess, left_of, packed};

/// A write of the run has one place on its channel.
pub fn writes_have_one_place<X, E>()
    ensures { (s : Scene X E) → IsShared s → (c j k : ℕ) (d : E) → IsWrite s c j d → IsWrite s c k d → j ≡ k }
{}

/// A window but the first is later than the one before it (`rises`), and none is later than a time
/// after the end (`most`). A number has one window (`one`), and a window tells the one before it
/// (`before`). What comes before a window on a windowed channel was written before the window before
/// it (`written`).
pub fn windows_rise<X, E>()
    ensures rises { (s : Scene X E) → IsShared s → (k v x : ℕ) → IsWindow s (suc k) v x → v < x }
    ensures most { (s : Scene X E) → IsShared s → (k v x : ℕ) → IsWindow s k v x → x ≤ s.until + 1 }
    ensures one { (s : Scene X E) → IsShared s → (k v x u y : ℕ) → IsWindow s k v x → IsWindow s k u y → (v ≡ u) × (x ≡ y) }
    ensures before { (s : Scene X E) → IsShared s → (k v x j u y : ℕ) → IsWindow s k v x → IsWindow s j u y → x ≡ y → v ≡ u }
    ensures written { (s : Scene X E) → IsShared s → (k v x j : ℕ) (by d : E) → IsWindow s k v x → IsWrittenBy s j by d
        → s.net.cross (channel_of s d) ≡ true → s.net.appointed (channel_of s d) ≡ false → time_of s d < x → time_of s by < v }
{}

/// A sound timeline still executes nothing before its lower bound (`early`), so it has executed all
/// its events before a time up to this bound (`done`).
pub fn lower_bounds_hold<X, E>()
    ensures early { (s : Scene X E) → IsShared s → (i : ℕ) (l : Line E) → IsSoundLine s i l
        → (k : ℕ) (e : E) → l.moment ≤ k → event_at s k ≡ Some e → is_on_line s i e ≡ true → low_of s i l ≤ time_of s e }
    ensures done { (s : Scene X E) → IsShared s → (i : ℕ) (l : Line E) → IsSoundLine s i l → (x : ℕ) → x ≤ low_of s i l → HasDone s i x l }
{}

/// At the beginning all parts are sound, and no event is counted.
pub fn parts_begin_sound<X, E>()
    ensures line { (s : Scene X E) → IsShared s → (i : ℕ) → IsSoundLine s i (first_line s i) }
    ensures counted { (s : Scene X E) → IsShared s → (budget i : ℕ) → IsCounted s budget i (first_line s i) }
    ensures all { (s : Scene X E) → IsShared s → IsSoundCore s 0 (first_core s) }
{}

/// What a sound timeline may execute is the next event of this timeline in the run (`next`). With the
/// writes that this event makes in the run the timeline stays sound (`sound`) and counted (`counted`),
/// and its lower bound does not fall (`low`).
pub fn executing_keeps_sound<X, E>()
    ensures next { (s : Scene X E) → IsShared s → (i : ℕ) (l : Line E) → IsSoundLine s i l → (h : E) (rest : List E) → l.pending ≡ h ∷ rest
        → time_of s h ≤ s.until → time_of s h < bound_of s.net i l → IsNext s i l.moment h }
    ensures sound { (s : Scene X E) → IsShared s → (i : ℕ) (l : Line E) → IsSoundLine s i l → (h : E) (rest : List E) → l.pending ≡ h ∷ rest
        → time_of s h < bound_of s.net i l → (q : IsNext s i l.moment h)
        → IsSoundLine s i (executed_line s i (q.wait + l.moment) (s.machine.writes (world_at s (q.wait + l.moment)).state h) rest l) }
    ensures counted { (s : Scene X E) → IsShared s → (i : ℕ) (l : Line E) → IsSoundLine s i l → (h : E) (rest : List E) → l.pending ≡ h ∷ rest
        → time_of s h < bound_of s.net i l → (q : IsNext s i l.moment h) → (budget : ℕ) → IsCounted s budget i l → l.executed < budget
        → IsCounted s budget i (executed_line s i (q.wait + l.moment) (s.machine.writes (world_at s (q.wait + l.moment)).state h) rest l) }
    ensures low { (s : Scene X E) → IsShared s → (i : ℕ) (l : Line E) → IsSoundLine s i l → (h : E) (rest : List E) (n : ℕ) → l.pending ≡ h ∷ rest → event_at s n ≡ Some h
        → low_of s i l ≤ low_of s i (executed_line s i n (s.machine.writes (world_at s n).state h) rest l) }
{}

/// Where a timeline's part of the state is that of the run at its moment, its next event writes there
/// what it writes in the run (`writes`) and makes of it that of the run after the event (`state`), and
/// the history grows by the event's entry (`history`). `fine x e` tests that e may be executed in
/// the state x, and `same x y` that the timeline's part is the same in x and y.
pub fn next_events_do_the_same<X, E>()
    ensures writes { (s : Scene X E) (i : ℕ) (fine : X → E → Bool) (same : X → X → Bool)
        → IsLocal s.machine (is_on_line s i) (λ x e. fine x e ≡ true) (λ x y. same x y ≡ true)
        → ((n : ℕ) (e : E) → event_at s n ≡ Some e → fine (world_at s n).state e ≡ true)
        → (n : ℕ) (h : E) (q : IsNext s i n h) → is_on_line s i h ≡ true → (x : X) → same x (world_at s n).state ≡ true
        → s.machine.writes (world_at s (q.wait + n)).state h ≡ s.machine.writes x h }
    ensures state { (s : Scene X E) (i : ℕ) (fine : X → E → Bool) (same : X → X → Bool)
        → IsLocal s.machine (is_on_line s i) (λ x e. fine x e ≡ true) (λ x y. same x y ≡ true)
        → ((n : ℕ) (e : E) → event_at s n ≡ Some e → fine (world_at s n).state e ≡ true)
        → (n : ℕ) (h : E) (q : IsNext s i n h) → is_on_line s i h ≡ true → (x : X) → same x (world_at s n).state ≡ true
        → same (s.machine.acts x h) (world_at s (suc (q.wait + n))).state ≡ true }
    ensures history { (s : Scene X E) (i n : ℕ) (h : E) (q : IsNext s i n h) → is_on_line s i h ≡ true
        → line_entries s i (suc (q.wait + n)) ≡ line_entries s i n ++ s.entry (world_at s (q.wait + n)).state h ∷ [] }
{}

/// What a sound timeline promises on a channel holds (`promise`), and its outbox with this promise is
/// a true parcel (`parcel`). Posting keeps the timeline sound (`line`) and the mail (`mail`).
pub fn posting_keeps_sound<X, E>()
    ensures promise { (s : Scene X E) → IsShared s → (i : ℕ) (l : Line E) → IsSoundLine s i l → (c : ℕ) → IsOutOf s.net i c → IsPromise s c (promise_of s i c l) (l.written c) }
    ensures parcel { (s : Scene X E) → IsShared s → (i : ℕ) (l : Line E) → IsSoundLine s i l → (c : ℕ) → IsOutOf s.net i c
        → IsTrueParcel s c (l.posted c) (l.outbox c) (l.written c) (promise_of s i c l) }
    ensures line { (s : Scene X E) → IsShared s → (i : ℕ) (l : Line E) → IsSoundLine s i l → (c : ℕ) → IsSoundLine s i (posted_line c l) }
    ensures mail { (s : Scene X E) → IsShared s → (i : ℕ) (l : Line E) → IsSoundLine s i l → (c : ℕ) (m : MailOf E) → IsOutOf s.net i c → IsSoundMail s c m → m.posted ≡ l.posted c
        → IsSoundMail s c (posted_mail s i c l m) }
{}

/// Two true parcels of a channel, of which one ends where the other begins, are one, with the greater
/// promise.
pub fn true_parcels_join<X, E>()
    ensures { (s : Scene X E) (c first between end p q : ℕ) (ds es : List E) → IsTrueParcel s c first ds between p → IsTrueParcel s c between es end q
        → IsTrueParcel s c first (ds ++ es) end (max p q) }
{}

/// No event comes too late: what a sound timeline takes of a true parcel, which begins where it has
/// taken up to, is at its bound or later (`late`) and comes after all that it has executed, in the
/// order of keys (`after`). Taking keeps the timeline sound (`line`) and the mail (`mail`), and the
/// timeline's lower bound does not fall (`low`).
pub fn taking_keeps_sound<X, E>()
    ensures late { (s : Scene X E) → IsShared s → (i : ℕ) (l : Line E) → IsSoundLine s i l → (c : ℕ) → IsInto s.net i c
        → (m : MailOf E) → IsTrueParcel s c (l.taken c) m.events m.posted m.appointment → (e : E) → Among e m.events → bound_of s.net i l ≤ time_of s e }
    ensures after { (s : Scene X E) → IsShared s → (i : ℕ) (l : Line E) → IsSoundLine s i l → (c : ℕ) → IsInto s.net i c
        → (m : MailOf E) → IsTrueParcel s c (l.taken c) m.events m.posted m.appointment
        → (j : ℕ) (d e : E) → j < l.moment → event_at s j ≡ Some d → is_on_line s i d ≡ true → Among e m.events → IsBefore (s.machine.key d) (s.machine.key e) }
    ensures line { (s : Scene X E) → IsShared s → (i : ℕ) (l : Line E) → IsSoundLine s i l → (c : ℕ) → IsInto s.net i c
        → (m : MailOf E) → IsTrueParcel s c (l.taken c) m.events m.posted m.appointment → IsSoundLine s i (taken_line s c l m) }
    ensures mail { (s : Scene X E) (c : ℕ) (m : MailOf E) → IsSoundMail s c m → IsSoundMail s c (taken_mail m) }
    ensures low { (s : Scene X E) → IsShared s → (i : ℕ) (l : Line E) → IsSoundLine s i l → (c : ℕ) → IsInto s.net i c
        → (m : MailOf E) → IsTrueParcel s c (l.taken c) m.events m.posted m.appointment → low_of s i l ≤ low_of s i (taken_line s c l m) }
{}

/// A sound timeline that may enter the window of a sound barrier, and has executed what is before the
/// window before it, stays sound there (`barrier`); so does one that enters a later window x of the
/// run, where it has taken all that was written before the moment `at` of the window before x and has
/// executed its own events before that (`window`). Its lower bound does not fall (`low`).
pub fn entering_keeps_sound<X, E>()
    ensures barrier { (s : Scene X E) → IsShared s → (i : ℕ) (l : Line E) → IsSoundLine s i l → (v : ℕ) (b : BarrierOf) → IsSoundBarrier s v b → CanEnter s.net i l b → HasDone s i v l
        → IsSoundLine s i (entered_line s b.window l) }
    ensures window { (s : Scene X E) → IsShared s → (i : ℕ) (l : Line E) → IsSoundLine s i l → (k v x at : ℕ) → IsWindow s k v x → IsCut s v at → l.entered < x
        → ((c : ℕ) → IsInto s.net i c → made s c at ≤ l.taken c) → HasDone s i v l → IsSoundLine s i (entered_line s x l) }
    ensures low { (s : Scene X E) → IsShared s → (i x : ℕ) (l : Line E) → IsSoundLine s i l → l.entered ≤ x → low_of s i l ≤ low_of s i (entered_line s x l) }
{}

/// The report of a sound timeline that stands in a window of the run, and has nothing ahead before it,
/// is true (`report`), and a sound barrier that takes it stays sound (`barrier`).
pub fn reporting_keeps_sound<X, E>()
    ensures report { (s : Scene X E) → IsShared s → (i : ℕ) (l : Line E) → IsSoundLine s i l → (k v x : ℕ) → IsWindow s k v x → l.entered ≡ x → x ≤ low_of s i l
        → IsReport s v x i (least_ahead_of s l) l.written }
    ensures barrier { (s : Scene X E) → IsShared s → (v i : ℕ) (l : Line E) (b : BarrierOf) → IsSoundLine s i l → IsSoundBarrier s v b → CanReport s i l b
        → IsSoundBarrier s v (reported_barrier s i l b) }
{}

/// Where all timelines have reported, the least report that is not after the end is the least time of
/// the run from the window on (`least`), and the barrier in the next round is sound (`next`). Where
/// it is after the end, the run has no event from the window on (`over`).
pub fn crossing_keeps_sound<X, E>()
    ensures least { (s : Scene X E) → IsShared s → (v : ℕ) (b : BarrierOf) → IsSoundBarrier s v b → CanCross s.net.timelines b
        → least_report s.until b.least s.net.timelines ≤ s.until → IsLeastFrom s b.window (least_report s.until b.least s.net.timelines) }
    ensures next { (s : Scene X E) → IsShared s → (v : ℕ) (b after : BarrierOf) → IsSoundBarrier s v b → CanCross s.net.timelines b → IsCrossing s b after
        → least_report s.until b.least s.net.timelines ≤ s.until → IsSoundBarrier s b.window after }
    ensures over { (s : Scene X E) → IsShared s → (v : ℕ) (b after : BarrierOf) → IsSoundBarrier s v b → CanCross s.net.timelines b → IsCrossing s b after
        → s.until < least_report s.until b.least s.net.timelines → IsSoundBarrier s v after × ((j : ℕ) (e : E) → event_at s j ≡ Some e → time_of s e < b.window) }
{}

/// Each step keeps all parts sound together (`sound`) and what is counted counted (`counted`), and
/// lowers neither a lower bound (`low`) nor the safe bound (`safe`).
pub fn steps_keep_sound<X, E>()
    ensures sound { (s : Scene X E) → IsShared s → (budget v : ℕ) (t after : CoreOf E) → IsSoundCore s v t → IsStep s budget t after → (w : ℕ) × IsSoundCore s w after }
    ensures counted { (s : Scene X E) → IsShared s → (budget v : ℕ) (t after : CoreOf E) → IsSoundCore s v t → ((i : ℕ) → i < s.net.timelines → IsCounted s budget i (t.lines i))
        → IsStep s budget t after → (i : ℕ) → i < s.net.timelines → IsCounted s budget i (after.lines i) }
    ensures low { (s : Scene X E) → IsShared s → (budget v : ℕ) (t after : CoreOf E) → IsSoundCore s v t → IsStep s budget t after
        → (i : ℕ) → low_of s i (t.lines i) ≤ low_of s i (after.lines i) }
    ensures safe { (s : Scene X E) → IsShared s → (budget v : ℕ) (t after : CoreOf E) → IsSoundCore s v t → IsStep s budget t after → safe_bound s t.lines ≤ safe_bound s after.lines }
{}

/// Until the barrier has ended some step is enabled, or the budget ends at some timeline.
pub fn steps_go_on<X, E>()
    ensures { (s : Scene X E) → IsShared s → (budget v : ℕ) (t : CoreOf E) → IsSoundCore s v t → t.barrier.ended ≡ false
        → ((after : CoreOf E) × IsStep s budget t after) ⊎ ((i : ℕ) × BudgetEndsAt s budget i t) }
{}

/// Each step leaves less to do (`less`), and less to do is a smaller number, where the last four
/// numbers of it are below the bases (`packed`). So the steps come to an end.
pub fn steps_leave_less<X, E>()
    ensures less { (s : Scene X E) → IsShared s → (budget v : ℕ) (t after : CoreOf E) → IsSoundCore s v t → IsStep s budget t after → IsLess (left_of s budget after) (left_of s budget t) }
    ensures packed { (windows events promises parcels : ℕ) (n m : Left) → n.windows < windows → n.events < events → n.promises < promises → n.parcels < parcels
        → IsLess n m → packed windows events promises parcels n < packed windows events promises parcels m }
{}

/// Each timeline has reached the safe bound (`safe`), and where the barrier has ended
/// all events of the run are (`ended`).
pub fn safe_bounds_hold<X, E>()
    ensures safe { (s : Scene X E) → IsShared s → (v : ℕ) (t : CoreOf E) → IsSoundCore s v t → HasReached s (safe_bound s t.lines) (λ i. (t.lines i).moment) }
    ensures ended { (s : Scene X E) → IsShared s → (v : ℕ) (t : CoreOf E) → IsSoundCore s v t → t.barrier.ended ≡ true
        → (j : ℕ) (e : E) → event_at s j ≡ Some e → j < (t.lines (s.line e)).moment }
{}

/// Where the budget ends at a timeline, its first pending event is its event number `budget`, counted
/// from 0 (`event`), the safe bound is the time of that event (`bound`), and no timeline has an earlier
/// event of this number (`least`).
pub fn budgets_end_at_the_least_time<X, E>()
    ensures event { (s : Scene X E) → IsShared s → (v : ℕ) (t : CoreOf E) → IsSoundCore s v t → (budget : ℕ) → ((i : ℕ) → i < s.net.timelines → IsCounted s budget i (t.lines i))
        → (i : ℕ) → (ends : BudgetEndsAt s budget i t) → (k : ℕ) × IsOwnEvent s i budget k ends.over.head }
    ensures bound { (s : Scene X E) → IsShared s → (v : ℕ) (t : CoreOf E) → IsSoundCore s v t → (budget : ℕ) → ((i : ℕ) → i < s.net.timelines → IsCounted s budget i (t.lines i))
        → (i : ℕ) → (ends : BudgetEndsAt s budget i t) → safe_bound s t.lines ≡ time_of s ends.over.head }
    ensures least { (s : Scene X E) → IsShared s → (v : ℕ) (t : CoreOf E) → IsSoundCore s v t → (budget : ℕ) → ((i : ℕ) → i < s.net.timelines → IsCounted s budget i (t.lines i))
        → (i : ℕ) → (ends : BudgetEndsAt s budget i t) → (j k : ℕ) (e : E) → IsOwnEvent s j budget k e → time_of s ends.over.head ≤ time_of s e }
{}
