//! Scripts over the data set of the new file: values and their places, and lines that are refused.

ghost use Rattle.std.specs.Prelude.{◌≡◌, [], ◌∷◌, true, codes, Some, None};
ghost use Rattle.cdf_model.specs.ByteOrder.{turned};
ghost use Rattle.cdf_model.specs.Place.{place};
ghost use Rattle.cdf_model.specs.declared.data_type.DataType.TheVariants.{Real8, Epoch16};
ghost use Rattle.cdf_model.specs.declared.head.Majority.TheVariants.{Row, Column};
ghost use Rattle.cdf_examples.specs.NewFile.{new_data_set};
ghost use Rattle.cdf_examples.specs.Scripts.{replies, is_refused};
ghost use Rattle.cdf_text_examples.specs.Texts.{text_lines};

/// Values of a record, of which one dimension does not vary.
pub fn values()
    ensures replies { replies new_data_set (codes "zvar W INT4 1 vary 2,3 TF" ∷ codes "put-rec W 0 10 20" ∷ codes "get-val W 0 1,0" ∷ codes "get-val W 0 1,2"
        ∷ codes "get-val W 0 1,3" ∷ codes "put-rec W 0 1" ∷ codes "put-val W 0 0,1 x" ∷ [])
        ≡ text_lines (codes "1 ok" ∷ codes "2 ok" ∷ codes "3 ok 20" ∷ codes "4 ok 20"
        ∷ codes "5 refused 13 IndexOutOfRange" ∷ codes "6 refused 11 WrongCount 1 2" ∷ codes "7 refused 12 BadValue 0" ∷ []) }
{}

/// Places of values in a record of 2 by 3, by either majority.
pub fn places()
    ensures row { place Row (2 ∷ 3 ∷ []) (true ∷ true ∷ []) (1 ∷ 2 ∷ []) ≡ Some 5 }
    ensures column { place Column (2 ∷ 3 ∷ []) (true ∷ true ∷ []) (1 ∷ 2 ∷ []) ≡ Some 5 }
    ensures next_row { place Row (2 ∷ 3 ∷ []) (true ∷ true ∷ []) (0 ∷ 1 ∷ []) ≡ Some 1 }
    ensures next_column { place Column (2 ∷ 3 ∷ []) (true ∷ true ∷ []) (0 ∷ 1 ∷ []) ≡ Some 2 }
    ensures none { place Row (2 ∷ 3 ∷ []) (true ∷ true ∷ []) (2 ∷ 0 ∷ []) ≡ None }
{}

/// Bytes of floating values and of a double date, with the low byte first: each half of the date by itself.
pub fn byte_orders()
    ensures date { turned Epoch16 true (0x00 ∷ 0x11 ∷ 0x22 ∷ 0x33 ∷ 0x44 ∷ 0x55 ∷ 0x66 ∷ 0x77 ∷ 0x88 ∷ 0x99 ∷ 0xaa ∷ 0xbb ∷ 0xcc ∷ 0xdd ∷ 0xee ∷ 0xff ∷ [])
        ≡ 0x77 ∷ 0x66 ∷ 0x55 ∷ 0x44 ∷ 0x33 ∷ 0x22 ∷ 0x11 ∷ 0x00 ∷ 0xff ∷ 0xee ∷ 0xdd ∷ 0xcc ∷ 0xbb ∷ 0xaa ∷ 0x99 ∷ 0x88 ∷ [] }
    ensures real { turned Real8 true (0x7f ∷ 0xf8 ∷ 0x00 ∷ 0x00 ∷ 0x00 ∷ 0x00 ∷ 0x00 ∷ 0x01 ∷ []) ≡ 0x01 ∷ 0x00 ∷ 0x00 ∷ 0x00 ∷ 0x00 ∷ 0x00 ∷ 0xf8 ∷ 0x7f ∷ [] }
    ensures replies { replies new_data_set (codes "zvar E EPOCH16 1 vary - -" ∷ codes "put-rec E 0 00112233445566778899aabbccddeeff" ∷ codes "zvar D REAL8 1 vary - -"
        ∷ codes "put-rec D 0 7FF8000000000001" ∷ codes "get-rec D 0" ∷ [])
        ≡ text_lines (codes "1 ok" ∷ codes "2 ok" ∷ codes "3 ok" ∷ codes "4 ok" ∷ codes "5 ok 7ff8000000000001" ∷ []) }
{}

/// Lines with a fault, and one that asks for a variable that is not there.
pub fn faults()
    ensures replies { replies new_data_set (codes "inf" ∷ [] ∷ codes "attr X" ∷ codes "rename-attr A B C" ∷ codes "get-rec T 01"
        ∷ codes "attr \"X global" ∷ codes "attr \"\\xZ\" global" ∷ codes "get-rec T 0" ∷ [])
        ≡ text_lines (codes "1 refused 1 BadLine UnknownWord 0" ∷ codes "3 refused 1 BadLine MissingWord 6" ∷ codes "4 refused 1 BadLine ExtraWord 16" ∷ codes "5 refused 1 BadLine BadNumber 10"
        ∷ codes "6 refused 1 BadLine BadQuote 5" ∷ codes "7 refused 1 BadLine BadHex 6" ∷ codes "8 refused 3 NoSuchVar" ∷ []) }
    ensures refused { is_refused new_data_set (codes "inf" ∷ codes "info" ∷ []) ≡ true }
{}
