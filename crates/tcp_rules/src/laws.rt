//! Laws of the rules: the contracts of functions with empty bodies.
ghost use Rattle.std.specs.Prelude.{◌≡◌, ℕ, ◌+◌, ◌≤◌, ◌^◌, ◌||◌, List, [], ◌++◌};
ghost use Rattle.std.specs.List.{Contains};
ghost use Rattle.sim_base.specs.SegmentFields.{SegmentFields, IsSegment};
ghost use Rattle.sim_base.specs.declared.records.TcpConfig.{TcpConfig};
ghost use Rattle.tcp_rules.specs.declared.records.Range.{Range};
ghost use Rattle.tcp_rules.specs.Segments.{IsTimedTcp};
ghost use Rattle.tcp_rules.specs.Clients.{ClientFields, data_out, sent_next};
ghost use Rattle.tcp_rules.specs.Servers.{ServerFields, accepted, added, beyond, covers, hole, holds, IsHole, server_segment, server_timeout};
ghost use Rattle.tcp_rules.specs.Sessions.{End, connecting, accepting, at_segment, at_timeout};
ghost use Rattle.tcp_rules.specs.Limits.{IsClientEnd, IsEnd, IsOrderly};
ghost use Rattle.tcp_rules.specs.Transfers.{Step, IsSound, HoldsOnly, after_steps, beginning};

/// Whatever a network loses, repeats, delays or reorders, and whenever deadlines pass: a server
/// delivers no more bytes than the client has, and these in order from the first; it passes only positions of
/// segments that the client sent; and the client takes no position for acknowledged that the server has not passed.
pub fn transfers_are_sound()
    ensures { (mine theirs : TcpConfig) (bytes opened_at accepted_at : ℕ) (steps : List Step)
        → IsSound mine.iss bytes (after_steps (beginning mine theirs bytes opened_at accepted_at) steps) }
{}

/// A session that is in range stays in range, and sends few segments at a time, all in range: at a
/// segment at most 65,538, which is three more than a window has, and else at most one.
pub fn sessions_are_orderly()
    ensures connecting { (config : TcpConfig) (bytes now : ℕ) → IsTimedTcp config → bytes ≤ 2 ^ 30
        → IsOrderly 1 (connecting config bytes now) }
    ensures accepting { (config : TcpConfig) (syn : SegmentFields) (now : ℕ) → IsTimedTcp config → IsSegment syn
        → IsOrderly 1 (accepting config syn now) }
    ensures segment { (e : End) (g : SegmentFields) (now : ℕ) → IsEnd e → IsSegment g → IsOrderly 65538 (at_segment e g now) }
    ensures timeout { (e : End) (now : ℕ) → IsEnd e → IsOrderly 1 (at_timeout e now) }
{}

/// A server that holds only positions of some segments does so after one more of them, and after a
/// timeout; it does so of more segments; and one that has just accepted a SYN holds none after it.
pub fn servers_hold_only_what_came()
    ensures accepting { (config : TcpConfig) (syn : SegmentFields) (now : ℕ) → HoldsOnly (syn.seq + 1) [] (accepted config syn now).after }
    ensures segment { (first : ℕ) (gs : List SegmentFields) (s : ServerFields) (g : SegmentFields) (now : ℕ) → Contains gs g
        → HoldsOnly first gs s → HoldsOnly first gs (server_segment s g now).after }
    ensures timeout { (first : ℕ) (gs : List SegmentFields) (s : ServerFields) (now : ℕ)
        → HoldsOnly first gs s → HoldsOnly first gs (server_timeout s now).after }
    ensures more { (first : ℕ) (gs hs : List SegmentFields) (s : ServerFields) → HoldsOnly first gs s → HoldsOnly first (gs ++ hs) s }
{}

/// A server never forgets its peer's first position: what it has delivered begins right after it.
pub fn servers_keep_their_first_position()
    ensures accepting { (config : TcpConfig) (syn : SegmentFields) (now : ℕ) → (accepted config syn now).after.irs ≡ syn.seq }
    ensures segment { (s : ServerFields) (g : SegmentFields) (now : ℕ) → (server_segment s g now).after.irs ≡ s.irs }
    ensures timeout { (s : ServerFields) (now : ℕ) → (server_timeout s now).after.irs ≡ s.irs }
{}

/// Data goes out while any is left and the next segment of it has room in the windows: first that
/// segment, and then what may go out after it.
pub fn data_goes_while_it_may()
    ensures { (now : ℕ) (c : ClientFields) → IsClientEnd c → data_out now c ≡ sent_next now c }
{}

/// Kept ranges are a set of positions: what is added is held besides what was, and a range that is
/// added again changes nothing. The hole is the first position from a given one on that is not held.
/// Forgetting the ranges below a position changes nothing from it on.
pub fn ranges_are_sets()
    ensures added { (r : Range) (rs : List Range) (p : ℕ) → covers (added r rs) p ≡ (holds r p || covers rs p) }
    ensures again { (r : Range) (rs : List Range) → added r (added r rs) ≡ added r rs }
    ensures hole { (rs : List Range) (p : ℕ) → IsHole rs p (hole rs p) }
    ensures forgotten { (rs : List Range) (q p : ℕ) → q ≤ p → covers (beyond q rs) p ≡ covers rs p }
{}
