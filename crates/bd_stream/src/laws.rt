//! What follows from the definitions of streams. Each function here carries laws of the definitions
//! and does nothing.

ghost use Rattle.std.specs.Prelude.{◌≡◌, ◌<◌, ◌≤◌, ◌↔◌, ◌++◌, ◌∷◌, [], ℕ, List, Some, None, length, slice_index, true};
ghost use Rattle.std.specs.List.{flat_map, AllByRecursion};
ghost use Rattle.bd_command.specs.Command.{IsShortPath, IsCommand};
ghost use Rattle.bd_limits.specs.Limits.{path_limit, write_limit, listing_limit};
ghost use Rattle.bd_names.specs.Names.{AreNames, path_text};
ghost use Rattle.bd_wire.specs.Numbers.{IsBytes};
ghost use Rattle.std.specs.FinMap.{get};
ghost use Rattle.bd_command.specs.declared.Command.{Command};
ghost use Rattle.bd_command.specs.declared.reply.Reply.{Reply};
ghost use Rattle.bd_model.specs.Tree.{Entry, Tree, IsTree};
ghost use Rattle.bd_model.specs.Step.{Placed, step};
ghost use Rattle.bd_stream.specs.declared.stage.Stage.TheVariants.{Absent};
ghost use Rattle.bd_stream.specs.Answering.{why_not};
ghost use Rattle.bd_stream.specs.Exporting.{Export, begin, asked, answered};
ghost use Rattle.bd_stream.specs.Exports.{IsOn, GoesOn, IsOnWay, rest_of, exported, after_replies};
ghost use Rattle.bd_stream.specs.declared.head.Head.{Head};
ghost use Rattle.bd_stream.specs.declared.machine.Phase.TheVariants.{Bad, Long, Ended};
ghost use Rattle.bd_stream.specs.Heads.{IsHead, head_of, head_bytes, head_size, is_kind};
ghost use Rattle.bd_stream.specs.Within.{AreBytes, IsWell};
ghost use Rattle.bd_stream.specs.Streams.{IsStreamFor, stream_bytes, stream_limit, stream_of, entries_at, entry_commands};
ghost use Rattle.bd_stream.specs.Planting.{IsFree, IsPlanted, AreAccepted, after_all, planting};
ghost use Rattle.bd_stream.specs.Importing.{Path, State, IsSound, fed, go, start};

use crate::importer::MAX_STREAM;

/// The limit of a stream has one name in code and one in definitions.
pub fn law_of_limits()
    ensures { MAX_STREAM ≡ stream_limit }
{}

/// A head that was written is read again.
pub fn heads_are_read_again()
    ensures { (head : Head) → IsHead head → head_of (head_bytes head) ≡ Some head }
{}

/// However a stream is cut, it gives the same: bytes that come in two pieces do what they do in one.
pub fn pieces_are_one()
    ensures state { (s : State) (a b : List ℕ) → (fed s (a ++ b)).0 ≡ (fed (fed s a).0 b).0 }
    ensures commands { (s : State) (a b : List ℕ)
        → (fed s (a ++ b)).1 ≡ (fed s a).1 ++ (fed (fed s a).0 b).1 }
{}

/// After a fault nothing more is taken, and after the end no byte may come.
pub fn faults_stay()
    ensures bad { (s : State) (bytes : List ℕ) → fed (go Bad s) bytes ≡ (go Bad s, []) }
    ensures long { (s : State) (bytes : List ℕ) → fed (go Long s) bytes ≡ (go Long s, []) }
    ensures ended { (s : State) (b : ℕ) (bytes : List ℕ)
        → fed (go Ended s) (b ∷ bytes) ≡ (go Bad s, []) }
{}

/// A whole stream gives the commands of its entries, and is complete then.
pub fn streams_are_imported()
    ensures commands { (target : Path) (entries : List Placed) → IsStreamFor target entries
        → (fed (start target) (stream_bytes entries)).1 ≡ flat_map (entry_commands target) entries }
    ensures whole { (target : Path) (entries : List Placed) → IsStreamFor target entries
        → (fed (start target) (stream_bytes entries)).0.phase ≡ Ended }
{}

/// Only streams are complete: bytes after which an importer has a complete one are those of entries
/// that may stand there, in order, and fit below the target.
pub fn only_streams_are_complete()
    ensures { (target : Path) (bytes : List ℕ) → IsShortPath target → AreBytes bytes
        → (fed (start target) bytes).0.phase ≡ Ended → (entries : List Placed)
        × IsStreamFor target entries × (bytes ≡ stream_bytes entries) }
{}

/// The entries at a path of a tree are those of a stream, where they fit below the target: so the
/// stream of the tree at that path is one that the importer takes.
pub fn trees_have_streams()
    ensures { (t : Tree) (top target : Path) (e : Entry) → IsTree t → get t top ≡ Some e
        → AreNames target → ((p : Path) (x : Entry) → get t (top ++ p) ≡ Some x
        → length (path_text (target ++ p)) ≤ path_limit)
        → IsStreamFor target (entries_at t top) }
{}

/// Where the target is absent and its parent a directory, each command that a tree's stream gives is
/// accepted, and what stands at the exported path and below it stands at the target then; all else
/// stays.
pub fn streams_plant_their_subtree()
    ensures accepted { (t u : Tree) (top target : Path) → IsTree t → IsTree u → IsFree u target
        → AreAccepted u (planting t top target) }
    ensures planted { (t u : Tree) (top target : Path) → IsTree t → IsTree u → IsFree u target
        → IsPlanted t top u (after_all u (planting t top target)) target }
{}

/// The commands that are given are within the limits of commands, where the target is the path of
/// one and what is fed are bytes.
pub fn commands_are_within_limits()
    ensures start { (target : Path) → IsShortPath target
        → IsSound (start target) × IsWell (start target) }
    ensures stays { (s : State) (bytes : List ℕ) → IsSound s → IsWell s → AreBytes bytes
        → IsSound (fed s bytes).0 × IsWell (fed s bytes).0 }
    ensures commands { (s : State) (bytes : List ℕ) → IsSound s → IsWell s → AreBytes bytes
        → AllByRecursion IsCommand (fed s bytes).1 }
{}

/// Bytes that are read as a head, as many as their first three say, are just those that it is
/// written as.
pub fn read_heads_were_written_so()
    ensures bytes { (bytes : List ℕ) (head : Head) → IsBytes bytes
        → is_kind (slice_index bytes 0) ≡ true → length bytes ≡ head_size bytes
        → head_of bytes ≡ Some head → bytes ≡ head_bytes head }
    ensures head { (bytes : List ℕ) (head : Head) → IsBytes bytes
        → is_kind (slice_index bytes 0) ≡ true → length bytes ≡ head_size bytes
        → head_of bytes ≡ Some head → IsHead head }
{}

/// An export whose answers are the replies of one tree writes what is left of the tree's stream at
/// the exported path, a part after each answer. At first all of the stream is left, and at the end
/// nothing; where the next entry's path is too long it is the next in the stream.
pub fn answers_write_the_stream()
    ensures begins { (t : Tree) (top : Path) → IsShortPath top → IsOn t (begin top) }
    ensures all { (t : Tree) (top : Path) (e : Entry) → get t top ≡ Some e
        → rest_of t (begin top) ≡ stream_of t top }
    ensures goes_on { (t : Tree) (s : Export) (c : Command) → IsTree t → IsOn t s
        → asked s ≡ Some c → GoesOn t s (answered s (step t c).1) }
    ensures absent { (t : Tree) (s : Export) (c : Command) → IsTree t → IsOn t s
        → asked s ≡ Some c → get t s.top ≡ None
        → (answered s (step t c).1).0.stage ≡ Absent }
{}

/// After any number of replies of one tree an export is on its way: where nothing is asked any more
/// and there was no fault, what was written is the stream of the tree at the exported path; where
/// the path isn't there it is refused, there alone, and nothing was written.
pub fn exports_are_streams()
    ensures way { (n : ℕ) (t : Tree) (top : Path) → IsTree t → IsShortPath top
        → IsOnWay t top (exported n t top) }
    ensures whole { (n : ℕ) (t : Tree) (top : Path) → IsTree t → IsShortPath top
        → asked (exported n t top).0 ≡ None → why_not (exported n t top).0.stage ≡ None
        → (exported n t top).1 ≡ stream_of t top }
    ensures refused { (n : ℕ) (t : Tree) (top : Path) → IsTree t → IsShortPath top → 1 ≤ n
        → ((exported n t top).0.stage ≡ Absent) ↔ (get t top ≡ None) }
{}

/// Whatever the answers are, an export ends: there is a number of them after which nothing is asked.
pub fn exports_end()
    ensures { (n : ℕ) × ((top : Path) (replies : ℕ → Reply) → IsShortPath top
        → asked (after_replies n replies (begin top)) ≡ None) }
{}

/// Little is kept: an importer keeps less than the 2,048 bytes of a write of its stream, and an
/// exporter at most the 100 names of a listing.
pub fn little_is_kept()
    ensures importer { (s : State) → IsSound s → length s.waiting < write_limit }
    ensures exporter { (s : Export) (r : Reply) → length s.names ≤ listing_limit
        → length (answered s r).0.names ≤ listing_limit }
{}
