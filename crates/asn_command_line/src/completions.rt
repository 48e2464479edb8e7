//! Holds the completions of the command line.

/// Completes the commands, options, notations and files of `asn` in bash, when it is sourced.
pub const BASH_COMPLETIONS: &str =
    r#"# Completes the words of asn in bash, by: source <(asn completions bash)
_asn() {
    local word=${COMP_WORDS[COMP_CWORD]} before=${COMP_WORDS[COMP_CWORD-1]} words=
    if [ "$COMP_CWORD" -eq 1 ]; then
        words='convert check types show grows keep completions help --help --version'
    else
        case $before,${COMP_WORDS[1]},$word in
            --from,*|--to,*|--example,*) words='jer avn' ;;
            -t,*|--type,*) ;;
            *,completions,*) words='bash --help' ;;
            *,convert,-*) words='--module --type --from --to --lines --explain --help' ;;
            *,show,-*) words='--type --example --full --help' ;;
            *,grows,-*) words='--type --help' ;;
            *,keep,-*) words='--type --from --help' ;;
            *,-*) words='--help' ;;
            *)
                compopt -o filenames
                mapfile -t COMPREPLY < <(compgen -f -- "$word")
                return
                ;;
        esac
    fi
    mapfile -t COMPREPLY < <(compgen -W "$words" -- "$word")
}
complete -F _asn asn
"#;
