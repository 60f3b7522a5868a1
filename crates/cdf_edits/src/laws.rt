//! What follows from a change of bytes, each law as the clause of a function.

ghost use Rattle.std.specs.Prelude.{◌≡◌, ◌≤◌, ◌<◌, ◌+◌, ◌-◌, ℕ, List, [], ◌∷◌, ◌++◌, true, false, length, Some};
ghost use Rattle.cdf_model.specs.declared.answer.Reply.{Reply};
ghost use Rattle.cdf_model.specs.declared.command.Command.{Command};
ghost use Rattle.cdf_model.specs.Answers.{Go};
ghost use Rattle.cdf_model.specs.Step.{ByStep, step};
ghost use Rattle.cdf_format.specs.Sound.{IsSound};
ghost use Rattle.cdf_model.specs.declared.kinds.EntryKind.{EntryKind};
ghost use Rattle.std.specs.List.{slice_get};
ghost use Rattle.cdf_edits.specs.Commands.Others.{is_on_attributes, is_on_entries, is_on_variables, AttributesStay, EntriesStay, IndexesStay, VariablesStay};
ghost use Rattle.cdf_edits.specs.Edits.EntryMarks.{entries_chain};
ghost use Rattle.cdf_edits.specs.Frame.Leaves.{ChangedWithin, LeavesFinding, FileStays, Leaves};
ghost use Rattle.cdf_edits.specs.Frame.Changed.{Touch, touch, Changed, Placed};
ghost use Rattle.cdf_format.specs.Chains.{Leads, is_a, is_in, is_linkable, next_field, next_of, chain};
ghost use Rattle.cdf_format.specs.Content.{content};
ghost use Rattle.cdf_format.specs.Fields.{word, size_at, type_at, eof};
ghost use Rattle.cdf_edits.specs.Space.Giving.{FirstBytes, IsGiven, UnlistedBytes};
ghost use Rattle.cdf_edits.specs.Frame.Links.{ChainHead, with_members, IsHead, AllSpare, IsLinkAfter, IsOther};
ghost use Rattle.cdf_edits.specs.Follows.{only_reads, Follows};
ghost use Rattle.cdf_format.specs.Owners.{times, owned_records, attribute_records, variable_records, unused_records};
ghost use Rattle.cdf_edits.specs.Space.Placement.{with_space};
ghost use Rattle.cdf_format.specs.RecordTypes.{uir_type, is_record_type, fixed_size};
ghost use Rattle.cdf_format.specs.Shape.{AttributeShape, VariableShape, Shape, variables, with_records, shape};
ghost use Rattle.cdf_edits.specs.Space.Taking.{NoneFit, last_of, FirstBack, TakenBytes, RestBytes, EndBytes, IsTaken};
ghost use Rattle.cdf_format.specs.Tiles.{In, Distinct, AreTiles, tiling};
ghost use Rattle.cdf_format.specs.Walks.{whole};
ghost use Rattle.cdf_format.specs.WellFormed.{Good};
ghost use Rattle.cdf_format.specs.Records.{cdr_place, past, record_type, linked_size};
ghost use Rattle.cdf_edits.specs.Edits.Edit.{Edit};
ghost use Rattle.cdf_edits.specs.Edits.Marks.{Mark};

/// A change within the records of one attribute leaves the tiling up to the old end, the chains of the file, every other attribute, all variables, and what the file says.
pub fn attr_alone()
    ensures { (b now records : List ℕ) (s : Shape) (before : List AttributeShape) (own : AttributeShape) (after : List AttributeShape) → IsSound b s → ((member : ℕ) → In member s.records → In member records) → s.attributes ≡ before ++ own ∷ after → ChangedWithin b now (attribute_records own) → Leaves b now s records (before ++ after) (variables s) × FileStays b now s }
{}

/// A change within the records of one variable leaves the tiling up to the old end, the chains of the file, all attributes, every other variable, and what the file says.
pub fn var_alone()
    ensures { (b now records : List ℕ) (s : Shape) (before : List VariableShape) (own : VariableShape) (after : List VariableShape) → IsSound b s → ((member : ℕ) → In member s.records → In member records) → variables s ≡ before ++ own ∷ after → ChangedWithin b now (variable_records own) → Leaves b now s records s.attributes (before ++ after) × FileStays b now s }
{}

/// A change within the CDR and the GDR, but for the fields that others are found and read by, leaves the tiling up to the old end, the chains, all attributes and all variables.
pub fn file_alone()
    ensures { (b now records : List ℕ) (s : Shape) (change : ChangedWithin b now (cdr_place ∷ s.gdr ∷ [])) → IsSound b s → ((member : ℕ) → In member s.records → In member records) → LeavesFinding b s change.touches → Leaves b now s records s.attributes (variables s) }
{}

/// A change within unused records leaves the tiling up to the old end, the chains, all attributes, all variables, and what the file says.
pub fn unused_alone()
    ensures { (b now records : List ℕ) (s : Shape) → IsSound b s → ((member : ℕ) → In member s.records → In member records) → ChangedWithin b now (unused_records b s) → Leaves b now s records s.attributes (variables s) × FileStays b now s }
{}

/// A link that is written changes the chain that it is behind a front part of, which goes on with the records that the link then leads through; every other chain stays. More may be touched that meets no link.
pub fn link_alone()
    ensures own { (b now records all : List ℕ) (upto holder place : ℕ) (more : List Touch) (c : ChainHead) (front rest tail : List ℕ) → AreTiles b cdr_place upto records → upto ≤ length b → ((member : ℕ) → In member records → In member all) → Changed b now (touch holder place next_field.width ∷ more) → Placed b records upto (touch holder place next_field.width ∷ more) → IsHead b records (with_members c (front ++ rest)) → IsLinkAfter c front holder place → AllSpare more (with_members c front) → Leads now (word now (holder + place) next_field.width) tail 0 → ((member : ℕ) → In member tail → is_linkable now all c.type member ≡ true) → Distinct (front ++ tail) → IsHead now all (with_members c (front ++ tail)) }
    ensures others { (b now records all : List ℕ) (upto holder place : ℕ) (more : List Touch) (c : ChainHead) (front rest : List ℕ) (other : ChainHead) → AreTiles b cdr_place upto records → upto ≤ length b → ((member : ℕ) → In member records → In member all) → Changed b now (touch holder place next_field.width ∷ more) → Placed b records upto (touch holder place next_field.width ∷ more) → IsHead b records (with_members c (front ++ rest)) → IsLinkAfter c front holder place → IsHead b records other → IsOther c front other → AllSpare more other → IsHead now all other }
{}

/// The records of an image, one more record behind them.
pub fn tile_appended()
    ensures { (b : List ℕ) (from upto n : ℕ) (tiles : List ℕ) → AreTiles b from upto tiles → size_at b upto ≡ n → past record_type ≤ n → AreTiles b from (upto + n) (tiles ++ upto ∷ []) }
{}

/// The records of an image of which one is split into two.
pub fn tile_split()
    ensures { (b now : List ℕ) (from upto tile n : ℕ) (before after : List ℕ) → AreTiles b from upto (before ++ tile ∷ after) → ((other : ℕ) → In other (before ++ after) → size_at now other ≡ size_at b other) → size_at now tile ≡ n → size_at now (tile + n) + n ≡ size_at b tile → past record_type ≤ n → past record_type ≤ size_at now (tile + n) → AreTiles now from upto (before ++ tile ∷ (tile + n) ∷ after) }
{}

/// A change within unused records that keeps the length leaves a sound image sound, with its content.
pub fn unused_stay_sound()
    ensures { (b now : List ℕ) (s : Shape) → IsSound b s → length now ≡ length b → ChangedWithin b now (unused_records b s) → IsSound now s × (content now ≡ content b) }
{}

/// A change within the CDR and the GDR that keeps the length, but for the fields that others are found and read by, leaves a sound image sound.
pub fn file_stays_sound()
    ensures { (b now : List ℕ) (s : Shape) (change : ChangedWithin b now (cdr_place ∷ s.gdr ∷ [])) → IsSound b s → length now ≡ length b → LeavesFinding b s change.touches → IsSound now s }
{}

/// An unused record behind the last one, on no list, leaves a sound image sound; the CDR and the GDR may change beside, but for the fields that others are found and read by.
pub fn appended_stays_sound()
    ensures { (b now : List ℕ) (s : Shape) (n : ℕ) (change : ChangedWithin b now (cdr_place ∷ s.gdr ∷ [])) → IsSound b s → LeavesFinding b s change.touches → length now ≡ length b + n → size_at now (length b) ≡ n → type_at now (length b) ≡ uir_type → past record_type ≤ n → IsSound now (with_records s (s.records ++ length b ∷ [])) }
{}

/// An unused record that is on no list is filled anew from its type on, with a type whose fixed part it has. A sound image stays sound then, with its shape and its content.
pub fn filled_stays_sound()
    ensures { (b now : List ℕ) (s : Shape) (place : ℕ) → IsSound b s → is_a b s.records uir_type place ≡ true → is_in place s.unused ≡ false → length now ≡ length b → Changed b now (touch place record_type.place (size_at b place - record_type.place) ∷ []) → is_record_type (type_at now place) ≡ true → fixed_size (type_at now place) ≤ size_at b place → IsSound now s × (content now ≡ content b) }
{}

/// Where a record of the unused list is taken whole, or split, or a record is placed at the end, the image stays sound, with its content, and the list is as first fit says.
pub fn taken_stays_sound()
    ensures whole { (b now : List ℕ) (s : Shape) (front : List ℕ) (a : ℕ) (more : List ℕ) (need : ℕ) → IsSound b s → s.unused ≡ front ++ a ∷ more → NoneFit b need front → eof b s.gdr ≡ length b → size_at b a ≡ need → TakenBytes b now s.gdr front a more need need (next_of b a) → FirstBack now (last_of 0 front) more → IsTaken b now s (with_space s s.records (front ++ more)) need a }
    ensures split { (b now : List ℕ) (s : Shape) (front : List ℕ) (a : ℕ) (more : List ℕ) (need : ℕ) → IsSound b s → s.unused ≡ front ++ a ∷ more → NoneFit b need front → eof b s.gdr ≡ length b → past record_type ≤ need → need + linked_size ≤ size_at b a → TakenBytes b now s.gdr front a more need (need + linked_size) (a + need) → RestBytes b now a need (last_of 0 front) → FirstBack now (a + need) more → (before after : List ℕ) → s.records ≡ before ++ a ∷ after → IsTaken b now s (with_space s (before ++ a ∷ (a + need) ∷ after) (front ++ (a + need) ∷ more)) need a }
    ensures at_end { (b now : List ℕ) (s : Shape) (need : ℕ) → IsSound b s → NoneFit b need s.unused → past record_type ≤ need → EndBytes b now s.gdr need → IsTaken b now s (with_space s (s.records ++ length b ∷ []) s.unused) need (length b) }
{}

/// Where a record of no owner is freed, the image stays sound, with its content, and the record is the first of the unused list or, where it has no room for the links, on no list.
pub fn given_stays_sound()
    ensures unlisted { (b now : List ℕ) (s : Shape) (place : ℕ) → IsSound b s → In place s.records → times place (owned_records b s) ≡ 0 → size_at b place < linked_size → UnlistedBytes b now place → IsGiven b now s (with_space s s.records s.unused) place }
    ensures first { (b now : List ℕ) (s : Shape) (place : ℕ) → IsSound b s → In place s.records → times place (owned_records b s) ≡ 0 → linked_size ≤ size_at b place → FirstBytes b now s.gdr s.unused place → IsGiven b now s (with_space s s.records (place ∷ s.unused)) place }
{}

/// A command that only reads follows by leaving the image as it is.
pub fn reading_follows()
    ensures { (b : List ℕ) (c : Command) (reply : Reply) → only_reads c ≡ true → step (content b) c ≡ ByStep (Go (content b) reply) → Good b → Follows b c b }
{}

/// A command leaves the names and the places of the attributes and of the variables where it is not on them.
pub fn others_stay()
    ensures attributes { (b now : List ℕ) (c : Command) → is_on_attributes c ≡ false → Good b → Follows b c now → AttributesStay b now }
    ensures variables { (b now : List ℕ) (c : Command) → is_on_variables c ≡ false → Good b → Follows b c now → VariablesStay b now }
{}

/// A command that is not on variables leaves the index of each.
pub fn indexes_stay()
    ensures { (b now : List ℕ) (c : Command) → is_on_variables c ≡ false → Good b → Follows b c now → IndexesStay b now }
{}

/// A command leaves the entries of each chain of each attribute where it is not on them.
pub fn entries_stay()
    ensures { (b now : List ℕ) (c : Command) (n : ℕ) (own : AttributeShape) (kind : EntryKind) → slice_get (shape b).attributes n ≡ Some own → is_on_entries (content b) c n kind ≡ false → Good b → Follows b c now → EntriesStay b now (entries_chain kind own.adr) }
{}

/// Two edits, one after the other, are one.
pub fn edit_then()
    ensures { (b mid now old between new : List ℕ) (marks more : List Mark) (reborn later : List ℕ) → Edit b mid old between marks reborn → Edit mid now between new more later → Edit b now old new (marks ++ more) (reborn ++ later) }
{}
