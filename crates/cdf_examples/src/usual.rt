//! A file with what files in use have.

ghost use Rattle.std.specs.Prelude.{◌≡◌, [], ◌∷◌, length, take, drop, codes};
ghost use Rattle.md5.specs.Md5.{md5};
ghost use Rattle.cdf_base.specs.Bytes.{put};
ghost use Rattle.cdf_format.specs.Content.{content};
ghost use Rattle.cdf_format.specs.Owners.{owned, space_of};
ghost use Rattle.cdf_format.specs.Sealed.{sealed};
ghost use Rattle.cdf_format.specs.Shape.{shape};
ghost use Rattle.cdf_format.specs.WellFormed.{WellFormed};
ghost use Rattle.cdf_model.specs.EventTexts.{dump_text};
ghost use Rattle.cdf_model.specs.Events.{events_of};
ghost use Rattle.cdf_examples.specs.Scripts.{made_by, room_for};
ghost use Rattle.cdf_text_examples.specs.Texts.{text_lines};
ghost use Rattle.cdf_examples.specs.Usual.{usual_image, usual_digest};
ghost use Rattle.cdf_examples.specs.UsualData.{usual_shape, usual_owned, usual_space, usual_data_set, usual_events, usual_dump, data_set_after};

/// Its records and their owners.
pub fn records()
    ensures length { length usual_image ≡ 2786 }
    ensures eof { take 8 (drop 356 usual_image) ≡ 0x00 ∷ 0x00 ∷ 0x00 ∷ 0x00 ∷ 0x00 ∷ 0x00 ∷ 0x0a ∷ 0xe2 ∷ [] }
    ensures shape { shape usual_image ≡ usual_shape }
    ensures owned { owned usual_image usual_shape ≡ usual_owned }
    ensures space { space_of usual_image usual_shape ≡ usual_space }
{}

/// The data set that it means.
pub fn meaning()
    ensures content { content usual_image ≡ usual_data_set }
{}

/// With its checksum it breaks no rule.
pub fn keeps_rules()
    ensures digest { md5 usual_image ≡ usual_digest }
    ensures rules { WellFormed (sealed usual_image) }
{}

/// Its events, and their text.
pub fn listed()
    ensures events { events_of usual_data_set ≡ usual_events }
    ensures dump { dump_text usual_data_set ≡ text_lines usual_dump }
{}

/// A record is put where a block has room: MaxRec and its bytes are all that changes in the image.
pub fn record_put()
    ensures made { made_by usual_data_set (codes "put-rec B_GSE 3 00000001 00000002 00000003" ∷ []) ≡ data_set_after }
    ensures room { room_for usual_image (codes "put-rec B_GSE 3 00000001 00000002 00000003") ≡ 0 }
    ensures content { content (put (put usual_image 1360 (0 ∷ 0 ∷ 0 ∷ 3 ∷ [])) 1876 (1 ∷ 0 ∷ 0 ∷ 0 ∷ 2 ∷ 0 ∷ 0 ∷ 0 ∷ 3 ∷ 0 ∷ 0 ∷ 0 ∷ [])) ≡ data_set_after }
{}
