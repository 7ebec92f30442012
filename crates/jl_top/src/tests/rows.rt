//! Worked files, in hexadecimal, with what the program answers and writes.

pub struct Row {
    pub name: &'static str,
    pub file: &'static str,
    pub status: u8,
    pub out: &'static str,
    pub err: &'static str,
}

pub const ROWS: [Row; 30] = [
    Row {
        name: "one_triple",
        file: "230a0c0a0a100148085008580878010a054a031201610a0c120a0a002a0210014a021001",
        status: 0,
        out: "<a> <a> <a> .\n",
        err: "",
    },
    Row {
        name: "length_in_two_bytes",
        file: "a3000a0c0a0a100148085008580878010a054a031201610a0c120a0a002a0210014a021001",
        status: 0,
        out: "<a> <a> <a> .\n",
        err: "",
    },
    Row {
        name: "empty_file",
        file: "",
        status: 0,
        out: "",
        err: "",
    },
    Row {
        name: "name_never_written",
        file: "0e0a0c0a0a1001480850085808780100080a0612040a021001",
        status: 1,
        out: "",
        err: "jellyp: malformed: file 1, frame 3, row 1: NoEntry\n",
    },
    Row {
        name: "cut_frame",
        file: "230a0c0a0a100148085008580878010a054a031201610a0c120a0a002a0210014a0210",
        status: 1,
        out: "",
        err: "jellyp: malformed: file 1, frame 1, row 0: Truncated\n",
    },
    Row {
        name: "cut_inside_a_frame",
        file: "050a044a0312",
        status: 1,
        out: "",
        err: "jellyp: malformed: file 1, frame 1, row 1: Truncated\n",
    },
    Row {
        name: "entry_before_options",
        file: "070a054a03120161",
        status: 1,
        out: "",
        err: "jellyp: malformed: file 1, frame 1, row 1: NoOptions\n",
    },
    Row {
        name: "implied_ids_across_frames",
        file: concat!(
            "150a0c0a0a100148085008580878010a054a03120161090a074a050803120163170a054a031201640a0e",
            "120c0a0210012a0210034a021004"
        ),
        status: 0,
        out: "<a> <c> <d> .\n",
        err: "",
    },
    Row {
        name: "entry_above_table",
        file: "170a0c0a0a100148085008580878010a074a050809120178",
        status: 1,
        out: "",
        err: "jellyp: malformed: file 1, frame 1, row 2: BadEntry\n",
    },
    Row {
        name: "implied_entry_above_table",
        file: "170a0c0a0a100148085008580878010a074a050808120178070a054a03120179",
        status: 1,
        out: "",
        err: "jellyp: malformed: file 1, frame 2, row 1: BadEntry\n",
    },
    Row {
        name: "repeated_term_keeps_its_text",
        file: concat!(
            "2d0a0c0a0a100148085008580878010a054a031201610a054a031201620a0f120d0a0210012a0210025a",
            "030a0178090a074a05080112017a090a0712055a030a0179"
        ),
        status: 0,
        out: "<a> <b> \"x\" .\n<a> <b> \"y\" .\n",
        err: "",
    },
    Row {
        name: "previous_prefix_after_rewrite",
        file: concat!(
            "2f0a0c0a0a100148085008580878010a0652041202753a0a054a031201610a10120e0a04080110012a02",
            "10014a0210010a0a08520608011202763a080a0612040a021001"
        ),
        status: 0,
        out: "<u:a> <u:a> <u:a> .\n<v:a> <u:a> <u:a> .\n",
        err: "",
    },
    Row {
        name: "whole_statement_repeated",
        file: "230a0c0a0a100148085008580878010a054a031201610a0c120a0a002a0210014a021001040a021200",
        status: 0,
        out: "<a> <a> <a> .\n<a> <a> <a> .\n",
        err: "",
    },
    Row {
        name: "nothing_to_repeat",
        file: "120a0c0a0a100148085008580878010a021200",
        status: 1,
        out: "",
        err: "jellyp: malformed: file 1, frame 1, row 2: NoTerm\n",
    },
    Row {
        name: "blank_subject",
        file: "240a0c0a0a100148085008580878010a054a031201610a0d120b1201782a0210014a021001",
        status: 0,
        out: "_:x <a> <a> .\n",
        err: "",
    },
    Row {
        name: "triple_after_graph_end",
        file: concat!(
            "1d0a0c0a0a100348085008580878010a054a031201670a0622040a021001170a054a031201610a0e120c",
            "0a0210022a0210024a021002040a022a00040a021200"
        ),
        status: 1,
        out: "<a> <a> <a> <g> .\n",
        err: "jellyp: malformed: file 1, frame 4, row 1: NoGraph\n",
    },
    Row {
        name: "repeated_options",
        file: "0e0a0c0a0a100148085008580878010e0a0c0a0a10014808500858087801",
        status: 0,
        out: "",
        err: "",
    },
    Row {
        name: "options_with_another_name",
        file: "0e0a0c0a0a10014808500858087801110a0f0a0d0a017310014808500858087801",
        status: 1,
        out: "",
        err: "jellyp: malformed: file 1, frame 2, row 1: OptionsDiffer\n",
    },
    Row {
        name: "nested_triple_term",
        file: concat!(
            "2f0a0c0a0a100148085008580878010a054a031201610a181216220c0a0210012a0210014a0210012a02",
            "10014a021001"
        ),
        status: 0,
        out: "<< <a> <a> <a> >> <a> <a> .\n",
        err: "",
    },
    Row {
        name: "nested_thirty_two_deep",
        file: concat!(
            "fb020a0c0a0a100148085008580878010a054a031201610ae30212e00222d50222ca0222bf0222b40222",
            "a902229e0222930222880222fd0122f20122e70122dc0122d10122c60122bb0122b00122a501229a0122",
            "8f01228401227a22702266225c22522248223e2234222a22202216220c0a0210012a0210014a0210012a",
            "0210014a0210012a0210014a0210012a0210014a0210012a0210014a0210012a0210014a0210012a0210",
            "014a0210012a0210014a0210012a0210014a0210012a0210014a0210012a0210014a0210012a0210014a",
            "0210012a0210014a0210012a0210014a0210012a0210014a0210012a0210014a0210012a0210014a0210",
            "012a0210014a0210012a0210014a0210012a0210014a0210012a0210014a0210012a0210014a0210012a",
            "0210014a0210012a0210014a0210012a0210014a0210012a0210014a0210012a0210014a0210012a0210",
            "014a0210012a0210014a0210012a0210014a0210012a0210014a0210012a0210014a0210012a0210014a",
            "021001"
        ),
        status: 0,
        out: concat!(
            "<< << << << << << << << << << << << << << << << << << << << << << << << << << << << ",
            "<< << << << <a> <a> <a> >> <a> <a> >> <a> <a> >> <a> <a> >> <a> <a> >> <a> <a> >> <a",
            "> <a> >> <a> <a> >> <a> <a> >> <a> <a> >> <a> <a> >> <a> <a> >> <a> <a> >> <a> <a> >",
            "> <a> <a> >> <a> <a> >> <a> <a> >> <a> <a> >> <a> <a> >> <a> <a> >> <a> <a> >> <a> <",
            "a> >> <a> <a> >> <a> <a> >> <a> <a> >> <a> <a> >> <a> <a> >> <a> <a> >> <a> <a> >> <",
            "a> <a> >> <a> <a> >> <a> <a> >> <a> <a> .\n"
        ),
        err: "",
    },
    Row {
        name: "escapes_and_labels",
        file: concat!(
            "380a0c0a0a100148085008580878010a074a0512036120620a1412121203612d582a0210015a070a0522",
            "0a7fc3a90a09120712005a030a0178"
        ),
        status: 0,
        out: "_:aX2DX58 <a\\u0020b> \"\\\"\\n\\u007Fé\" .\n_:X <a\\u0020b> \"x\" .\n",
        err: "",
    },
    Row {
        name: "quads_of_two_graphs",
        file: concat!(
            "450a120a1010021801200148a01f509601582078020a054a031201700a054a0312016f0a0e1a0c12046d",
            "315f622a004a007a000a054a031201670a0a1a0812046d325f626a00"
        ),
        status: 0,
        out: "_:m1X5Fb <p> <o> .\n_:m2X5Fb <p> <o> <g> .\n",
        err: "",
    },
    Row {
        name: "usual_producer",
        file: concat!(
            "bf010a110a0f1001200148800150105810700178010a1752151213687474703a2f2f6578616d706c652e",
            "6f72672f0a094a071205616c6963650a1e521c121a687474703a2f2f786d6c6e732e636f6d2f666f6166",
            "2f302e312f0a084a0612046e616d650a1712150a0208012a0208025a0b0a05416c6963651202656e0a07",
            "4a0512036167650a2c5a2a1228687474703a2f2f7777772e77332e6f72672f323030312f584d4c536368",
            "656d6123696e74656765720a0c120a2a005a060a0234321801"
        ),
        status: 0,
        out: concat!(
            "<http://example.org/alice> <http://xmlns.com/foaf/0.1/name> \"Alice\"@en .\n<http://",
            "example.org/alice> <http://xmlns.com/foaf/0.1/age> \"42\"^^<http://www.w3.org/2001/X",
            "MLSchema#integer> .\n"
        ),
        err: "",
    },
    Row {
        name: "made_pair",
        file: concat!(
            "ab010a120a1010011801200148a01f509601582078020a1a52181216687474703a2f2f6578616d706c65",
            "2e6f72672f76302f0a024a000a0a32080a027030120208010a1c521a1218687474703a2f2f6578616d70",
            "6c652e6f72672f763132392f0a094a0712056e323435380a1952171215687474703a2f2f6578616d706c",
            "652e6f72672f702f0a064a04120232360a1d121b0a0208022a0208035a110a0b74657874203533313536",
            "341202656e"
        ),
        status: 0,
        out: concat!(
            "# prefix p0 <http://example.org/v0/>\n<http://example.org/v129/n2458> <http://exampl",
            "e.org/p/26> \"text 531564\"@en .\n"
        ),
        err: "",
    },
    Row {
        name: "tables_of_no_slots",
        file: "150a060a04100178010a0b120912017832017952017a",
        status: 0,
        out: "_:x _:y _:z .\n",
        err: "",
    },
    Row {
        name: "table_of_one_slot",
        file: concat!(
            "210a080a061001480178010a054a031201610a0e120c0a0210012a0210014a021001110a074a05080112",
            "01620a0612044a021001"
        ),
        status: 0,
        out: "<a> <a> <a> .\n<a> <a> <b> .\n",
        err: "",
    },
    Row {
        name: "table_of_65536_slots",
        file: concat!(
            "2d0a0a0a0810014880800478010a094a07088080041201610a1412120a04108080042a04108080044a04",
            "10808004"
        ),
        status: 0,
        out: "<a> <a> <a> .\n",
        err: "",
    },
    Row {
        name: "options_in_another_spelling",
        file: "0e0a0c0a0a10014808500858087801170a150a1378017000580850880048082000180010010a00",
        status: 0,
        out: "",
        err: "",
    },
    Row {
        name: "empty_frames_and_metadata",
        file: concat!(
            "0000287a030a016b0a0c0a0a100148085008580878010a054a031201610a0c120a0a002a0210014a0210",
            "0100"
        ),
        status: 0,
        out: "<a> <a> <a> .\n",
        err: "",
    },
    Row {
        name: "fields_in_any_order",
        file: "230a0c0a0a100148085008580878010a054a031201610a0c120a4a0210012a0210010a00",
        status: 0,
        out: "<a> <a> <a> .\n",
        err: "",
    },
];

// For each kind a file with that fault first and nothing written before it, the fault's frame and row, and its name.
pub const KINDS: [(&str, u8, u8, &str); 20] = [
    ("81808040", 1, 0, "FrameTooLong"),
    ("050a044a0312", 1, 1, "Truncated"),
    ("ffffffffffffffffffff", 1, 0, "BadVarint"),
    ("0100", 1, 1, "BadTag"),
    ("020801", 1, 1, "WrongWire"),
    ("060a0412001200", 1, 1, "Twice"),
    ("070a054a031201ff", 1, 1, "BadUtf8"),
    (
        concat!(
            "86030a0c0a0a100148085008580878010a054a031201610aee0212eb0222e00222d50222ca0222bf0222",
            "b40222a902229e0222930222880222fd0122f20122e70122dc0122d10122c60122bb0122b00122a50122",
            "9a01228f01228401227a22702266225c22522248223e2234222a22202216220c0a0210012a0210014a02",
            "10012a0210014a0210012a0210014a0210012a0210014a0210012a0210014a0210012a0210014a021001",
            "2a0210014a0210012a0210014a0210012a0210014a0210012a0210014a0210012a0210014a0210012a02",
            "10014a0210012a0210014a0210012a0210014a0210012a0210014a0210012a0210014a0210012a021001",
            "4a0210012a0210014a0210012a0210014a0210012a0210014a0210012a0210014a0210012a0210014a02",
            "10012a0210014a0210012a0210014a0210012a0210014a0210012a0210014a0210012a0210014a021001",
            "2a0210014a0210012a0210014a0210012a0210014a0210012a0210014a0210012a0210014a0210012a02",
            "10014a0210012a0210014a021001"
        ),
        1,
        3,
        "TooDeep",
    ),
    ("020a00", 1, 1, "EmptyRow"),
    ("070a054a03120161", 1, 1, "NoOptions"),
    ("0e0a0c0a0a10014808500858087803", 1, 1, "BadOptions"),
    ("0c0a0a0a081001488180047801", 1, 1, "TableTooLarge"),
    (
        "0e0a0c0a0a10014808500858087801110a0f0a0d0a017310014808500858087801",
        2,
        1,
        "OptionsDiffer",
    ),
    ("120a0c0a0a100148085008580878010a021a00", 1, 2, "WrongRow"),
    (
        "170a0c0a0a100148085008580878010a074a050809120178",
        1,
        2,
        "BadEntry",
    ),
    (
        "0e0a0c0a0a1001480850085808780100080a0612040a021001",
        3,
        1,
        "NoEntry",
    ),
    ("120a0c0a0a100148085008580878010a021200", 1, 2, "NoTerm"),
    ("120a0c0a0a100348085008580878010a021200", 1, 2, "NoGraph"),
    (
        "1a0a0c0a0a100348085008580878010a0422021a000a0422021a00",
        1,
        3,
        "GraphOpen",
    ),
    (
        concat!(
            "2b0a0c0a0a100148085008580878010a054a031201610a1412120a0210012a0210015a080a0178120365",
            "5f6e"
        ),
        1,
        3,
        "BadLangtag",
    ),
];

// The first frame of a TRIPLES and of a GRAPHS file, with a triple each, and a frame that repeats it.
const TRIPLES: &str =
    "250a0c0a0a100148085008580878010a054a031201610a0e120c0a0210012a0210014a021001";

const GRAPHS: &str = concat!(
    "2b0a0c0a0a100348085008580878010a054a031201610a0422021a000a0e120c0a0210012a0210014a02",
    "1001"
);

pub const REPEATED: &str = "040a021200";

// A first frame, a last frame with a fault, the fault's row in it, and its name.
pub const LASTS: [(&str, &str, u8, &str); 15] = [
    (TRIPLES, "050a044a0312", 1, "Truncated"),
    (TRIPLES, "0b08ffffffffffffffffffff", 1, "BadVarint"),
    (TRIPLES, "0100", 1, "BadTag"),
    (TRIPLES, "020801", 1, "WrongWire"),
    (TRIPLES, "060a0412001200", 1, "Twice"),
    (TRIPLES, "070a054a031201ff", 1, "BadUtf8"),
    (TRIPLES, "020a00", 1, "EmptyRow"),
    (
        TRIPLES,
        "0e0a0c0a0a10024808500858087801",
        1,
        "OptionsDiffer",
    ),
    (TRIPLES, "040a021a00", 1, "WrongRow"),
    (TRIPLES, "090a074a050809120178", 1, "BadEntry"),
    (TRIPLES, "080a0612040a021005", 1, "NoEntry"),
    (TRIPLES, "060a0412022200", 1, "NoTerm"),
    (TRIPLES, "0e0a0c120a5a080a01781203655f6e", 1, "BadLangtag"),
    (GRAPHS, "080a022a000a022a00", 2, "NoGraph"),
    (GRAPHS, "060a0422021a00", 1, "GraphOpen"),
];

/// A report's file, with the command and what the program answers and writes.
pub struct Report {
    pub command: &'static str,
    pub file: &'static str,
    pub status: u8,
    pub out: &'static str,
    pub err: &'static str,
}

pub const REPORTS: [Report; 9] = [
    Report {
        command: "validate",
        file: "",
        status: 0,
        out: "valid: 0 frames, 0 statements, 0 namespaces\n",
        err: "",
    },
    // One triple, and a frame of metadata.
    Report {
        command: "validate",
        file: concat!(
            "230a0c0a0a100148085008580878010a054a031201610a0c120a0a002a0210014a021001",
            "057a030a016b"
        ),
        status: 0,
        out: "valid: 2 frames, 1 statements, 0 namespaces\n",
        err: "",
    },
    // A triple before a name that was never written.
    Report {
        command: "validate",
        file: concat!(
            "230a0c0a0a100148085008580878010a054a031201610a0c120a0a002a0210014a021001",
            "080a0612040a021005"
        ),
        status: 1,
        out: "",
        err: "jellyp: malformed: file 1, frame 2, row 1: NoEntry\n",
    },
    Report {
        command: "inspect",
        file: "230a0c0a0a100148085008580878010a054a031201610a0c120a0a002a0210014a021001",
        status: 0,
        out: concat!(
            "bytes: 36\nframes: 1\nmetadata: 0\n",
            "options: physical TRIPLES, logical 0, version 1, generalized no, star no\n",
            "tables: names 8, prefixes 8, datatypes 8\nstream name: \"\"\n",
            "options rows: 1\ntriples: 1\nquads: 0\ngraph starts: 0\ngraph ends: 0\nnamespaces: 0\n",
            "name entries: 1\nprefix entries: 0\ndatatype entries: 0\n"
        ),
        err: "",
    },
    Report {
        command: "inspect",
        file: concat!(
            "230a0c0a0a100148085008580878010a054a031201610a0c120a0a002a0210014a021001",
            "057a030a016b"
        ),
        status: 0,
        out: concat!(
            "bytes: 42\nframes: 2\nmetadata: 1\n",
            "options: physical TRIPLES, logical 0, version 1, generalized no, star no\n",
            "tables: names 8, prefixes 8, datatypes 8\nstream name: \"\"\n",
            "options rows: 1\ntriples: 1\nquads: 0\ngraph starts: 0\ngraph ends: 0\nnamespaces: 0\n",
            "name entries: 1\nprefix entries: 0\ndatatype entries: 0\n"
        ),
        err: "",
    },
    // A name that was never written, and options that differ, are no faults of it.
    Report {
        command: "inspect",
        file: "160a0c0a0a100148085008580878010a0612040a0210050e0a0c0a0a10014808500858087802",
        status: 0,
        out: concat!(
            "bytes: 38\nframes: 2\nmetadata: 0\n",
            "options: physical TRIPLES, logical 0, version 1, generalized no, star no\n",
            "tables: names 8, prefixes 8, datatypes 8\nstream name: \"\"\n",
            "options rows: 2\ntriples: 1\nquads: 0\ngraph starts: 0\ngraph ends: 0\nnamespaces: 0\n",
            "name entries: 0\nprefix entries: 0\ndatatype entries: 0\n"
        ),
        err: "",
    },
    Report {
        command: "inspect",
        file: "0000",
        status: 0,
        out: concat!(
            "bytes: 2\nframes: 2\nmetadata: 0\noptions: none\n",
            "options rows: 0\ntriples: 0\nquads: 0\ngraph starts: 0\ngraph ends: 0\nnamespaces: 0\n",
            "name entries: 0\nprefix entries: 0\ndatatype entries: 0\n"
        ),
        err: "",
    },
    // A length that runs past the file's end, behind a name that was never written.
    Report {
        command: "inspect",
        file: "160a0c0a0a100148085008580878010a0612040a02100505",
        status: 1,
        out: "",
        err: "jellyp: malformed: file 1, frame 2, row 0: Truncated\n",
    },
    Report {
        command: "inspect",
        file: "070a054a03120161",
        status: 1,
        out: "",
        err: "jellyp: malformed: file 1, frame 1, row 1: NoOptions\n",
    },
];
