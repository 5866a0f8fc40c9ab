//! Laws of clients and their handles. Each function here carries some and does nothing.

ghost use Rattle.std.specs.Prelude.{◌≡◌, ◌≢◌, ◌++◌, ℕ, List, Option, None, Ok, map, slice_set, IsTrue};
ghost use Rattle.std.specs.FinMap.{get};
ghost use Rattle.bd_command.specs.declared.Command.{Command};
ghost use Rattle.bd_command.specs.declared.reply.Reply.{Reply};
ghost use Rattle.bd_model.specs.Tree.{Path, Tree, IsTree};
ghost use Rattle.bd_model.specs.Step.{has_file};
ghost use Rattle.bd_model.specs.Laws.{Accepts, after};
ghost use Rattle.bd_script.specs.Lines.{held};
ghost use Rattle.bd_script.specs.declared.replies.LineReply.{LineReply};
ghost use Rattle.bd_script.specs.declared.replies.LineReply.TheVariants as line_reply;
ghost use Rattle.bd_sessions.specs.declared.asking.Ask.TheVariants as ask;
ghost use Rattle.bd_sessions.specs.declared.asking.SessionReply.TheVariants as said;
ghost use Rattle.bd_sessions.specs.declared.handle.Handle.TheVariants as handle;
ghost use Rattle.bd_sessions.specs.declared.turn.Turn.{Turn};
ghost use Rattle.bd_sessions.specs.Following.{followed};
ghost use Rattle.bd_sessions.specs.Handles.{client_limit, handle_limit, Table, Tables, Opening, Row, Kept, own, row_of, table_in, tables_in, opening_at, stands_for, one_more, followed_handle, followed_tables, heard, no_handles, no_tables};
ghost use Rattle.bd_sessions.specs.Sessions.{asked, prepared, waits_on, settled, opened_in, Opens};
ghost use Rattle.bd_sessions.specs.Spoken.{Mode, Single, spoken};
ghost use Rattle.bd_sessions.specs.Telling.{turn_said, turn_kept, closed_kept};
ghost use Rattle.bd_sessions.specs.Laws.{HasFileIfThere, Heard, own_after, heard_by, closes_by};

use crate::{MAX_CLIENTS, MAX_HANDLES};

/// A number stands for where the path of its opening leads: a command that is accepted leads it one
/// step on, an opening begins at its path, and what is closed is free.
pub fn handles_follow_their_files()
    ensures one { (c : Command) (o : Option Opening)
        → stands_for (one_more c o) ≡ followed_handle c (stands_for o) }
    ensures all { (c : Command) (kept : Kept)
        → tables_in (map (map (one_more c)) kept) ≡ followed_tables c (tables_in kept) }
    ensures begins { (path : Path) (number : ℕ) (row : Row)
        → map stands_for (slice_set row number (opening_at path))
        ≡ slice_set (map stands_for row) number (handle.At path) }
    ensures ends { (number : ℕ) (row : Row)
        → map stands_for (slice_set row number None)
        ≡ slice_set (map stands_for row) number handle.Free }
    ensures none { tables_in no_handles ≡ no_tables }
{}

/// What a file is at before a command that is accepted is gone after it, or leads to a file: so a
/// handle that isn't gone finds neither nothing nor a directory.
pub fn followed_paths_have_files()
    ensures { (t : Tree) (c : Command) (path : Path) → IsTree t → Accepts t c
        → IsTrue (has_file (get t path)) → HasFileIfThere (after t c) (followed c path) }
{}

/// What a turn leaves of handles and what is said of it are what the model keeps and says: for a
/// command that the tree replied to, one that has no reply, a handle that is closed, and all else.
pub fn sessions_keep_handles()
    ensures settled { (client : ℕ) (turn : Turn) (c : Command) (reply : Reply) (kept : Kept)
        → asked (table_in kept client) turn ≡ ask.Do c
        → settled (waits_on client turn c (tables_in kept)) reply
        (prepared client turn (tables_in kept))
        ≡ (
          turn_said turn (line_reply.Command reply) (table_in kept client),
          tables_in (turn_kept client turn c (line_reply.Command reply) kept),
        ) }
    ensures full { (client : ℕ) (turn : Turn) (c : Command) (free need : ℕ) (kept : Kept)
        → turn_kept client turn c (line_reply.Full free need) kept ≡ kept }
    ensures full_said { (turn : Turn) (free need : ℕ) (table : Table)
        → turn_said turn (line_reply.Full free need) table ≡ said.Same }
    ensures closed { (client : ℕ) (turn : Turn) (kept : Kept)
        → prepared client turn (tables_in kept) ≡ tables_in (closed_kept client turn kept) }
    ensures stays { (client : ℕ) (turn : Turn) (tables : Tables)
        → asked (own client tables) turn ≢ ask.Closed → prepared client turn tables ≡ tables }
    ensures own { (client : ℕ) (kept : Kept)
        → own client (tables_in kept) ≡ table_in kept client }
{}

/// A client's handles are its own: what another one asks for leaves them, but for commands that are
/// accepted, and what an open says is told by the client's own table.
pub fn handles_are_their_clients()
    ensures prepared { (client other : ℕ) (turn : Turn) (tables : Tables) → other ≢ client
        → own other (prepared client turn tables) ≡ own other tables }
    ensures opened { (client other : ℕ) (path : Path) (reply : Reply) (tables : Tables)
        → other ≢ client
        → own other (settled (Opens client path) reply tables).1 ≡ own other tables }
    ensures said { (client : ℕ) (path : Path) (reply : Reply) (tables : Tables)
        → (settled (Opens client path) reply tables).0
        ≡ (opened_in path reply (own client tables)).0 }
    ensures followed { (client : ℕ) (c : Command) (tables : Tables)
        → own client (followed_tables c tables) ≡ map (followed_handle c) (own client tables) }
{}

/// What is kept of a client's handles after a turn of any client is told by its own opens and
/// closes and by the commands that were accepted, and so after several turns.
pub fn own_handles()
    ensures heard { (client speaker : ℕ) (turn : Turn) (c : Command) (line : LineReply)
        (kept : Kept) → row_of client (turn_kept speaker turn c line kept)
        ≡ own_after (heard_by client speaker turn c line) (row_of client kept) }
    ensures closed { (client speaker : ℕ) (turn : Turn) (kept : Kept)
        → row_of client (closed_kept speaker turn kept)
        ≡ own_after (closes_by client speaker turn) (row_of client kept) }
    ensures joined { (first more : List Heard) (row : Row)
        → own_after (first ++ more) row ≡ own_after more (own_after first row) }
{}

/// What a line says is told by its first 8,193 bytes: from then on it is a bad one.
pub fn long_lines_are_bad()
    ensures { (mode : Mode) (line : List ℕ) → spoken mode (held line) ≡ spoken mode line }
{}

/// The constants of the code are the limits of the definitions.
pub fn law_of_limits()
    ensures clients { MAX_CLIENTS ≡ client_limit }
    ensures handles { MAX_HANDLES ≡ handle_limit }
{}

/// In a script of one client no handle is ever open, and none is closed.
pub fn no_handle_comes()
    ensures heard { (line : List ℕ) (turn : Turn) → (spoken Single line).turn ≡ Ok turn
        → (client : ℕ) (c : Command) (reply : LineReply)
        → turn_kept client turn c reply no_handles ≡ no_handles }
    ensures closed { (line : List ℕ) (turn : Turn) → (spoken Single line).turn ≡ Ok turn
        → (table : Table) → asked table turn ≢ ask.Closed }
    ensures accepted { (c : Command) (reply : LineReply) → heard c reply no_handles ≡ no_handles }
{}
