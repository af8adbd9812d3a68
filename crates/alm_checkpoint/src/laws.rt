//! Laws of what a device encodes: each function does nothing, and its contract is the law.

ghost use Rattle.std.specs.Prelude.{◌≡◌, ◌≢◌, ◌+◌, ◌<◌, ◌≤◌, ◌^◌, ℕ, true, false, All, List, [], ◌∷◌, ◌++◌, length, Some, Ok, Err};
ghost use Rattle.alm_model.specs.Plant.{Condensed};
ghost use Rattle.alm_model.specs.Step.{run};
ghost use Rattle.alm_model.specs.Rules.{AreAdmitted};
ghost use Rattle.alm_codec.specs.Frames.{IsFrame, asked_actions, frame_text};
ghost use Rattle.alm_codec.specs.declared.version.Version.TheVariants.{V03};
ghost use Rattle.alm_codec.specs.Reading.{IsBytes};
ghost use Rattle.alm_codec.specs.Versions.{AreBorne, is_open, newer};
ghost use Rattle.alm_segment.specs.Texts.{Frame};
ghost use Rattle.alm_checkpoint.specs.declared.device_fault.DeviceFault.{DeviceFault};
ghost use Rattle.alm_checkpoint.specs.declared.half_head.HalfHead.{HalfHead};
ghost use Rattle.alm_checkpoint.specs.declared.layout.Layout.{Layout};
ghost use Rattle.alm_checkpoint.specs.declared.half.Half.{Half};
ghost use Rattle.alm_checkpoint.specs.declared.half.Half.TheVariants.{First};
ghost use Rattle.alm_checkpoint.specs.declared.device_fault.DeviceFault.TheVariants.{Damaged};
ghost use Rattle.alm_checkpoint.specs.Layouts.{device_len, half_at, half_len, other, image_sum_at};
ghost use Rattle.alm_checkpoint.specs.Headers.{header_text, half_head_text, image_sum, IsHeadOf};
ghost use Rattle.alm_checkpoint.specs.Opening.{Opened, gate_in, half_head_from, head_of, layout_from};
ghost use Rattle.alm_checkpoint.specs.Standing.{Stands, HasFault, Meaning, gate_place, image_damage};
ghost use Rattle.alm_checkpoint.specs.Cut.{Cut, IsLayout, Stores, Reaches, IsBelow, IsCut, OtherGates, half_text, device_of, with_frame, with_frames, with_other, turned_cut};

/// No text of a header is a prefix of another's.
pub fn no_header_begins_another()
    ensures { (a b : Layout) (x y : List ℕ) → IsLayout a → IsLayout b →
        header_text a ++ x ≡ header_text b ++ y → a ≡ b }
{}

/// No text of a half's head is a prefix of another's of the same layout.
pub fn no_head_begins_another()
    ensures { (l : Layout) (h : Half) (a b : HalfHead) (x y : List ℕ) → IsLayout l →
        IsHeadOf l a → IsHeadOf l b →
        half_head_text l h a ++ x ≡ half_head_text l h b ++ y → a ≡ b }
{}

/// The text of a header, after its open gate, is read as its layout, on a device that holds both halves.
pub fn a_header_is_read()
    ensures { (size : ℕ) (l : Layout) → IsLayout l → device_len l ≤ size →
        layout_from size (165 ∷ header_text l) ≡ Ok l }
{}

/// A device of these fields encodes the plant that they store, whatever follows the first closed gate.
pub fn a_cut_stands()
    ensures { (c : Cut) (plant : Condensed) (gate : ℕ) (tail : List ℕ) → Stores c plant →
        is_open c.version gate ≡ false → Reaches c (gate ∷ tail) →
        Stands (device_of c (gate ∷ tail)) c.epoch plant }
{}

/// A device that encodes a plant has such fields, and its first closed gate is at their end.
pub fn what_stands_is_cut()
    ensures { (device : List ℕ) (epoch : ℕ) (plant : Condensed) (s : Stands device epoch plant) →
        IsBytes device → IsCut device epoch plant (gate_place s) }
{}

/// If the gate after the frames is open and a frame follows whose actions the half's version has, they are the fields with that
/// frame. They store the plant after its actions.
pub fn a_frame_more()
    ensures { (c : Cut) (plant : Condensed) (f : Frame) (tail : List ℕ) → Stores c plant →
        is_open c.version f.gate ≡ true → IsFrame c.version c.epoch (plant.panel.count + 1) f.asked →
        AreBorne c.version (asked_actions f.asked) → AreAdmitted plant (asked_actions f.asked) →
        Stores (with_frame c f) (run plant (asked_actions f.asked)) × (device_of c
        (f.gate ∷ frame_text c.version c.epoch (plant.panel.count + 1) f.asked ++ tail) ≡
        device_of (with_frame c f) tail) }
{}

/// Whatever bytes are in the other half, the same plant is stored, as long as its gate is closed or its epoch is smaller. In
/// version 03 an open gate needs a head that is whole.
pub fn another_half()
    ensures { (c : Cut) (plant : Condensed) (bytes : List ℕ) → Stores c plant →
        length bytes ≡ half_len c.layout → IsBelow c.layout (other c.half) c.epoch bytes →
        Stores (with_other c bytes) plant }
{}

/// Let the other half have an open gate, the version that a checkpoint writes, the next epoch and an image of the stored plant.
/// Then that half stands, and the same plant is stored.
pub fn a_turn()
    ensures { (c : Cut) (plant : Condensed) (tail new_tail : List ℕ) → Stores c plant →
        Reaches c tail → c.epoch + 1 < 2 ^ 64 →
        Stores (turned_cut c plant tail) plant × (device_of (with_other c (half_text c.layout
        (other c.half) (newer c.version) (c.epoch + 1) plant [] ++ new_tail)) tail ≡
        device_of (turned_cut c plant tail) new_tail) }
{}

/// Whatever open gates the frames have, the same plant is stored. In version 03 a frame's gate is open at every value but 5A.
pub fn other_gates()
    ensures { (c : Cut) (plant : Condensed) (frames : List Frame) → Stores c plant →
        OtherGates c.version c.frames frames → Stores (with_frames c frames) plant }
{}

/// Let the gate of the half that stands be changed while the other half's is closed. Then no half stands, and that is damage.
pub fn a_damaged_half_gate_is_told()
    ensures { (bytes : List ℕ) (epoch : ℕ) (plant : Condensed) (s : Stands bytes epoch plant)
        (front back : List ℕ) (gate : ℕ) → bytes ≡ front ++ 165 ∷ back →
        length front ≡ half_at s.opened.layout s.opened.half →
        gate_in (head_of s.opened.layout (other s.opened.half) bytes) ≡ false → gate ≢ 165 →
        HasFault (front ++ gate ∷ back) (Damaged 2 (half_at s.opened.layout First)) }
{}

/// A half's head of version 03 of which one byte was changed is damaged.
pub fn a_changed_byte_of_a_head_is_damage()
    ensures { (l : Layout) (h : Half) (t : HalfHead) (front back : List ℕ) (a b gate : ℕ) →
        IsHeadOf l t → t.version ≡ V03 → half_head_text l h t ≡ front ++ a ∷ back →
        IsBytes (front ++ b ∷ back) → b ≢ a →
        (fault : DeviceFault) × (half_head_from l h (gate ∷ (front ++ b ∷ back)) ≡ Err fault) }
{}

/// An image of version 03 of which one byte was changed is damaged: its head says the checksum of the other bytes.
pub fn a_changed_byte_of_an_image_is_damage()
    ensures { (o : Opened) (front back : List ℕ) (a b : ℕ) → o.head.version ≡ V03 →
        o.head.sum ≡ image_sum V03 (front ++ a ∷ back) → o.image ≡ front ++ b ∷ back →
        All (λ n. n < 256) (front ++ a ∷ back) → All (λ n. n < 256) (front ++ b ∷ back) → b ≢ a →
        image_damage o ≡ Some (image_sum_at o.layout o.half) }
{}

/// Bytes encode at most one plant, in one epoch.
pub fn one_plant()
    ensures { (device : List ℕ) (e f : ℕ) (q r : Condensed) → Stands device e q →
        Stands device f r → (e ≡ f) × (q ≡ r) }
{}

/// Bytes that encode a plant have no fault.
pub fn no_fault_beside()
    ensures { (device : List ℕ) (e : ℕ) (q : Condensed) (fault : DeviceFault) → Stands device e q →
        HasFault device fault → ⊥ }
{}

/// Bytes have at most one fault.
pub fn one_fault()
    ensures { (device : List ℕ) (x y : DeviceFault) → HasFault device x → HasFault device y → x ≡ y }
{}

/// Every list of bytes encodes a plant or has a fault.
pub fn stands_or_has_a_fault()
    ensures { (device : List ℕ) → IsBytes device → Meaning device }
{}
