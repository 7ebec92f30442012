//! Files that keep to what they declare and files that don't, with what the program answers and writes under the strict
//! profile and without it.

pub struct Row {
    pub command: &'static str,
    pub option: &'static str,
    pub file: &'static str,
    pub status: u8,
    pub out: &'static str,
    pub err: &'static str,
}

pub const STRICT: [Row; 14] = [
    // One triple.
    Row {
        command: "validate",
        option: "--strict=1",
        file: "230a0c0a0a100148085008580878010a054a031201610a0c120a0a002a0210014a021001",
        status: 0,
        out: "valid: 1 frames, 1 statements, 0 namespaces\n",
        err: "",
    },
    Row {
        command: "validate",
        option: "--strict=0",
        file: "230a0c0a0a100148085008580878010a054a031201610a0c120a0a002a0210014a021001",
        status: 0,
        out: "valid: 1 frames, 1 statements, 0 namespaces\n",
        err: "",
    },
    // As a usual producer writes it.
    Row {
        command: "validate",
        option: "--strict=1",
        file: concat!(
            "bf010a110a0f1001200148800150105810700178010a1752151213687474703a2f2f6578616d706c652e",
            "6f72672f0a094a071205616c6963650a1e521c121a687474703a2f2f786d6c6e732e636f6d2f666f6166",
            "2f302e312f0a084a0612046e616d650a1712150a0208012a0208025a0b0a05416c6963651202656e0a07",
            "4a0512036167650a2c5a2a1228687474703a2f2f7777772e77332e6f72672f323030312f584d4c536368",
            "656d6123696e74656765720a0c120a2a005a060a0234321801"
        ),
        status: 0,
        out: "valid: 1 frames, 2 statements, 0 namespaces\n",
        err: "",
    },
    // A namespace in a file of the second version.
    Row {
        command: "validate",
        option: "--strict=1",
        file: concat!(
            "ab010a120a1010011801200148a01f509601582078020a1a52181216687474703a2f2f6578616d706c65",
            "2e6f72672f76302f0a024a000a0a32080a027030120208010a1c521a1218687474703a2f2f6578616d70",
            "6c652e6f72672f763132392f0a094a0712056e323435380a1952171215687474703a2f2f6578616d706c",
            "652e6f72672f702f0a064a04120232360a1d121b0a0208022a0208035a110a0b74657874203533313536",
            "341202656e"
        ),
        status: 0,
        out: "valid: 1 frames, 1 statements, 1 namespaces\n",
        err: "",
    },
    // A triple term, where none are declared.
    Row {
        command: "nquads",
        option: "--strict=1",
        file: concat!(
            "2f0a0c0a0a100148085008580878010a054a031201610a181216220c0a0210012a0210014a0210012a02",
            "10014a021001"
        ),
        status: 1,
        out: "",
        err: "jellyp: malformed: file 1, frame 1, row 3: NoStar\n",
    },
    Row {
        command: "nquads",
        option: "--strict=0",
        file: concat!(
            "2f0a0c0a0a100148085008580878010a054a031201610a181216220c0a0210012a0210014a0210012a02",
            "10014a021001"
        ),
        status: 0,
        out: "<< <a> <a> <a> >> <a> <a> .\n",
        err: "",
    },
    // A literal as a subject.
    Row {
        command: "nquads",
        option: "--strict=1",
        file: "260a0c0a0a100148085008580878010a054a031201610a0f120d1a030a01782a0210014a021001",
        status: 1,
        out: "",
        err: "jellyp: malformed: file 1, frame 1, row 3: NotPlain\n",
    },
    Row {
        command: "nquads",
        option: "--strict=0",
        file: "260a0c0a0a100148085008580878010a054a031201610a0f120d1a030a01782a0210014a021001",
        status: 0,
        out: "\"x\" <a> <a> .\n",
        err: "",
    },
    // A namespace in a file of the first version.
    Row {
        command: "nquads",
        option: "--strict=1",
        file: "200a0c0a0a100148085008580878010a054a031201610a0932070a017012021001",
        status: 1,
        out: "",
        err: "jellyp: malformed: file 1, frame 1, row 3: EarlyNamespace\n",
    },
    Row {
        command: "nquads",
        option: "--strict=0",
        file: "200a0c0a0a100148085008580878010a054a031201610a0932070a017012021001",
        status: 0,
        out: "# prefix p <a>\n",
        err: "",
    },
    // Tables of seven names, and a logical type of quads.
    Row {
        command: "validate",
        option: "--strict=1",
        file: "0e0a0c0a0a10014807500858087801",
        status: 1,
        out: "",
        err: "jellyp: malformed: file 1, frame 1, row 1: SmallNames\n",
    },
    Row {
        command: "validate",
        option: "--strict=0",
        file: "0e0a0c0a0a10014807500858087801",
        status: 0,
        out: "valid: 1 frames, 0 statements, 0 namespaces\n",
        err: "",
    },
    Row {
        command: "validate",
        option: "--strict=1",
        file: "100a0e0a0c100148085008580870027801",
        status: 1,
        out: "",
        err: "jellyp: malformed: file 1, frame 1, row 1: BadLogical\n",
    },
    Row {
        command: "validate",
        option: "--strict=0",
        file: "100a0e0a0c100148085008580870027801",
        status: 0,
        out: "valid: 1 frames, 0 statements, 0 namespaces\n",
        err: "",
    },
];
