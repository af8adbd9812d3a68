//! Laws of the texts: each function does nothing, and its contract is the law.

ghost use Rattle.std.specs.Prelude.{◌≡◌, ◌≢◌, ◌≤◌, ◌+◌, ◌*◌, ◌++◌, ◌∷◌, ℕ, List, None, Ok, Err, length};
ghost use Rattle.alm_types.specs.declared.action.Action.{Action};
ghost use Rattle.alm_model.specs.Plant.{Condensed};
ghost use Rattle.alm_model.specs.Rules.{KeepsRules};
ghost use Rattle.alm_types.specs.Actions.{IsAction};
ghost use Rattle.alm_codec.specs.Actions.{action_text};
ghost use Rattle.alm_codec.specs.Frames.{IsFrame, asked_actions, frame_at, frame_text, shown};
ghost use Rattle.alm_codec.specs.declared.asked.Asked.{Asked};
ghost use Rattle.alm_codec.specs.Reading.{IsBytes};
ghost use Rattle.alm_codec.specs.declared.version.Version.{Version};
ghost use Rattle.alm_codec.specs.declared.version.Version.TheVariants.{V03};
ghost use Rattle.alm_codec.specs.Versions.{AreBorne};
ghost use Rattle.alm_codec.specs.ImageFields.{damage_in};
ghost use Rattle.alm_codec.specs.Image.{IsImageText, IsOf, image_text, image_len};
ghost use Rattle.alm_types.specs.Sizes.{most_alarms, most_areas};

/// Bytes are undamaged exactly if they are the image of a plant of these rows, areas and actions.
pub fn undamaged_is_an_image()
    ensures some { (rows areas count : ℕ) (bytes : List ℕ) → (1 ≤ rows) × (rows ≤ most_alarms) →
        (1 ≤ areas) × (areas ≤ most_areas) → IsBytes bytes →
        damage_in rows areas count bytes ≡ None →
        (q : Condensed) × IsOf rows areas count q × IsImageText q bytes }
    ensures none { (rows areas count : ℕ) (bytes : List ℕ) (q : Condensed) →
        IsOf rows areas count q → IsImageText q bytes → damage_in rows areas count bytes ≡ None }
{}

/// Bytes are undamaged exactly if they begin with a frame of the version and its next gate.
pub fn undamaged_is_a_frame()
    ensures some { (version : Version) (epoch count : ℕ) (bytes : List ℕ) (list : List Asked)
        (rest : List ℕ) → IsBytes bytes → frame_at version epoch count bytes ≡ Ok (list, rest) →
        IsFrame version epoch (count + 1) list × AreBorne version (asked_actions list) ×
        (bytes ≡ frame_text version epoch (count + 1) list ++ rest) × (1 ≤ length rest) }
    ensures none { (version : Version) (epoch count : ℕ) (list : List Asked) (gate : ℕ)
        (rest : List ℕ) → IsFrame version epoch (count + 1) list →
        AreBorne version (asked_actions list) →
        frame_at version epoch count (frame_text version epoch (count + 1) list ++ gate ∷ rest) ≡
        Ok (list, gate ∷ rest) }
{}

/// How long the text of a frame is.
pub fn frame_has_its_length()
    ensures { (version : Version) (epoch first : ℕ) (list : List Asked) →
        length (frame_text version epoch first list) ≡ 18 + 16 * length list }
{}

/// No text of an action is a prefix of another's.
pub fn no_action_begins_another()
    ensures { (a b : Action) (x y : List ℕ) → IsAction a → IsAction b →
        action_text a ++ x ≡ action_text b ++ y → a ≡ b }
{}

/// No text of a frame is a prefix of another's of the same version.
pub fn no_frame_begins_another()
    ensures { (v : Version) (e f d g : ℕ) (a b : List Asked) (x y : List ℕ) →
        IsFrame v e f a → IsFrame v d g b →
        frame_text v e f a ++ x ≡ frame_text v d g b ++ y →
        (e ≡ d) × (shown v f ≡ shown v g) × (a ≡ b) }
{}

/// A frame of version 03 of which one byte was changed is damaged.
pub fn a_changed_byte_is_damage()
    ensures { (epoch count byte changed gate : ℕ) (list : List Asked)
        (front back rest : List ℕ) → IsFrame V03 epoch (count + 1) list →
        frame_text V03 epoch (count + 1) list ≡ front ++ byte ∷ back → changed ≢ byte →
        IsBytes ((front ++ changed ∷ back) ++ gate ∷ rest) →
        (left : ℕ) × (frame_at V03 epoch count ((front ++ changed ∷ back) ++ gate ∷ rest) ≡ Err left) }
{}

/// How long the image of a plant is.
pub fn image_has_its_length()
    ensures { (q : Condensed) → KeepsRules q →
        length (image_text q) ≡ image_len (length q.panel.rows) (length q.floods) }
{}

/// No image of a plant is a prefix of another's of the same rows, areas and actions.
pub fn no_image_begins_another()
    ensures { (q r : Condensed) (a b x y : List ℕ) → IsImageText q a → IsImageText r b →
        IsOf (length r.panel.rows) (length r.floods) r.panel.count q → a ++ x ≡ b ++ y → q ≡ r }
{}
