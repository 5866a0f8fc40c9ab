//! What follows from the encodings and the sizes of messages, and from their being freed of a prefix.
ghost use Rattle.std.specs.Prelude.{◌≡◌, ℕ, ◌+◌, ◌≤◌, ◌⊎◌, true, false, List, ◌++◌, length, Option, None, IfSome};
ghost use Rattle.std.specs.Option.{option_to_list};
ghost use Rattle.bd_limits.specs.Limits.{key_limit};
ghost use Rattle.bd_wire.specs.Encoding.{IsPrefixFree};
ghost use Rattle.bd_message.specs.Messages.{IsMessage, size};
ghost use Rattle.bd_message.specs.Codec.{message_bytes};
ghost use Rattle.bd_message.specs.Effect.{NodesAt, begins, act, acts};
ghost use Rattle.bd_message.specs.Freeing.{CanStrip, restricted, stripped, freed, KeepsSource, source_of, source_after, CoversAll};
ghost use Rattle.bd_message.specs.declared.message.Message.{Message};

/// No message's encoding begins another's, so what was written is read again, whatever follows it.
pub fn messages_are_prefix_free()
    ensures { IsPrefixFree IsMessage message_bytes }
{}

/// An encoding is never longer than the message's size.
pub fn encodings_fit_sizes()
    ensures { (m : Message) → IsMessage m → length (message_bytes m) ≤ size m }
{}

/// A message's part on the keys that begin with a prefix does there what the message does, and
/// nothing elsewhere. It can be stripped of the prefix.
pub fn restricted_messages()
    ensures inside { (below : NodesAt) (s : List ℕ) (m : Message) (k : List ℕ) → begins k s ≡ true
        → (old : Option (List ℕ))
        → acts below (option_to_list (restricted s m)) k old ≡ act below m k old }
    ensures outside { (below : NodesAt) (s : List ℕ) (m : Message) (k : List ℕ)
        → begins k s ≡ false → (old : Option (List ℕ))
        → acts below (option_to_list (restricted s m)) k old ≡ old }
    ensures strips { (s : List ℕ) (m : Message) → IfSome (restricted s m) (CanStrip s) }
{}

/// A stripped message does to what follows the prefix what the message did to the keys that begin
/// with it, and so does a message freed of a prefix, which is none where it changed nothing there.
pub fn freed_messages()
    ensures stripped { (below : NodesAt) (s : List ℕ) (m : Message) → CanStrip s m
        → (k : List ℕ) (old : Option (List ℕ))
        → act below (stripped s m) k old ≡ act below m (s ++ k) old }
    ensures effect { (below : NodesAt) (s : List ℕ) (m : Message) (k : List ℕ)
        (old : Option (List ℕ))
        → acts below (option_to_list (freed s m)) k old ≡ act below m (s ++ k) old }
    ensures covering { (below : NodesAt) (m : Message) → CoversAll m → (k : List ℕ)
        (old : Option (List ℕ)) → act below m k old ≡ act below m k None }
{}

/// How large a freed message is. It is a message where its source has at most 518 bytes. It grows
/// with its source alone, which grows where the prefix is longer than a Goto's own; it shrinks by
/// the whole prefix where it doesn't cover all keys.
pub fn freed_sizes()
    ensures source { (s : List ℕ) (m : Message)
        → IfSome (freed s m) (λ n. length (source_of n) ≡ source_after s m) }
    ensures message { (s : List ℕ) (m : Message) → IsMessage m → source_after s m ≤ key_limit
        → IfSome (freed s m) IsMessage }
    ensures larger { (s : List ℕ) (m : Message) → IfSome (freed s m)
        (λ n. size n + length (source_of m) ≤ size m + length (source_of n)) }
    ensures smaller { (s : List ℕ) (m : Message) → IfSome (freed s m)
        (λ n. CoversAll n ⊎ (size n + length s ≤ size m)) }
    ensures kept_source { (s : List ℕ) (m : Message) → KeepsSource s m
        → source_after s m ≡ length (source_of m) }
    ensures kept_message { (s : List ℕ) (m : Message) → KeepsSource s m → IsMessage m
        → IfSome (freed s m) IsMessage }
    ensures kept_size { (s : List ℕ) (m : Message) → KeepsSource s m
        → IfSome (freed s m) (λ n. size n ≤ size m) }
{}
