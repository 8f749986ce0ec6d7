//! How the page looks: colours that the colour-blind tell apart, on light, on dark and on paper. The first rules say all; those that
//! depend on the reader change colours alone, since programs that draw on pictures know neither them nor variables.

/// The style sheet.
pub const STYLE: &[u8] = b"
svg{max-width:100%;height:auto;background:#fff;font-family:system-ui,-apple-system,'Segoe UI',Roboto,'Helvetica Neue',Arial,sans-serif}
text{font-size:12px;fill:#1b1f24}
.name{font-size:15px;font-weight:600}.verdict,.broken{font-size:13px}.broken{font-weight:600}
.group{font-size:11px;font-weight:600;letter-spacing:.04em}
.label,.value,.says,.wanted{font-family:ui-monospace,SFMono-Regular,Menlo,Consolas,'DejaVu Sans Mono',monospace}
.value,.says,.wanted{font-size:10px}.tick,.note,.at{font-size:11px}
.tick{text-anchor:middle}.value,.before{text-anchor:end}
.paper{fill:#fff}.band{fill:#f6f8fa;fill-opacity:.7}
.verdict,.group,.value,.says,.tick,.note,.at{fill:#656d76}
.grid{stroke:#d8dee4;stroke-width:1}.axis{stroke:#656d76;stroke-width:1}.end{stroke:#656d76;stroke-width:1.5}
.action{fill:#0072b2}.event{fill:#d55e00}.literal{fill:#1b1f24}.process{fill:#009e73}.atom{fill:#56a0d3}.many{opacity:.55}
.line{fill:none;stroke:#8250a8;stroke-width:1.6;stroke-linejoin:round}.dot{fill:#8250a8}
.goal{stroke:#b35900;stroke-width:1.4;stroke-dasharray:5 4}.wanted{fill:#b35900}
.refused{stroke:#cf222e;stroke-width:2;fill:none}.broken,.lost{fill:#cf222e}
@media (prefers-color-scheme:dark){svg{background:#0d1117}text{fill:#e6edf3}.paper{fill:#0d1117}.band{fill:#151b23}
.verdict,.group,.value,.says,.tick,.note,.at{fill:#8d96a0}.grid{stroke:#30363d}.axis,.end{stroke:#8d96a0}
.action{fill:#58b4f0}.event{fill:#ff8f4d}.literal{fill:#e6edf3}.process{fill:#2fbf94}.atom{fill:#79b8e8}
.line{stroke:#c6a0e8}.dot{fill:#c6a0e8}.goal{stroke:#e8b04a}.wanted{fill:#e8b04a}.refused{stroke:#ff6b6b}.broken,.lost{fill:#ff6b6b}}
@media print{svg{background:#fff}text{fill:#000}.paper{fill:#fff}.band{fill:#f6f6f6}
.verdict,.group,.value,.says,.tick,.note,.at{fill:#444}.grid{stroke:#bbb}.axis,.end{stroke:#444}
.action{fill:#0072b2}.event{fill:#d55e00}.literal{fill:#000}.process{fill:#009e73}.atom{fill:#56a0d3}
.line{stroke:#8250a8}.dot{fill:#8250a8}.goal{stroke:#b35900}.wanted{fill:#b35900}.refused{stroke:#cf222e}.broken,.lost{fill:#cf222e}}
";
