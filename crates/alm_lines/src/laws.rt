//! Laws of the lines: each function does nothing, and its contract is the law.

ghost use Rattle.std.specs.Prelude.{◌≡◌, ℕ, ◌+◌, ◌<◌, ◌≤◌, ◌^◌, List, length};
ghost use Rattle.alm_lines.specs.Line.{line_of, line_limit};
ghost use Rattle.alm_lines.specs.Texts.{request_text, IsAskInRange, IsAsking};
ghost use Rattle.alm_lines.specs.declared.ask.Ask.{Ask};
ghost use Rattle.alm_lines.specs.Since.{event_text, recalled_text, IsOfPlant};
ghost use Rattle.alm_types.specs.declared.event.Event.{Event};
ghost use Rattle.alm_types.specs.Sizes.{most_actions};
ghost use Rattle.std.specs.List.{AllByRecursion};

/// Each request has exactly one text: a line that asks for something is the text of what it asks, and that text asks
/// for it. With the end of its line it has at most 128 bytes.
pub fn each_request_has_one_text()
    ensures taken { (bytes : List ℕ) → IsAsking (line_of bytes).ask →
        bytes ≡ request_text (line_of bytes).id (line_of bytes).ask }
    ensures short { (id : ℕ) (ask : Ask) → id < 2 ^ 32 → IsAskInRange ask →
        length (request_text id ask) ≤ line_limit }
    ensures asked { (id : ℕ) (ask : Ask) → id < 2 ^ 32 → IsAskInRange ask →
        line_of (request_text id ask) ≡ record { id = id; ask = ask } }
{}

/// An event has at most 43 bytes in a reply to SINCE, and such a reply has at most 11,061.
pub fn what_happened_is_short()
    ensures event { (e : Event) → IsOfPlant e → length (event_text e) ≤ 43 }
    ensures reply { (id n first : ℕ) (events : List Event) → id < 2 ^ 32 → n ≤ most_actions →
        first ≤ most_actions + 1 → length events ≤ 256 → AllByRecursion IsOfPlant events →
        length (recalled_text id n first events) ≤ 11061 }
{}
